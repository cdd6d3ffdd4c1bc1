//! How the vertices of a graph end: a vertex is done with its outputs, or fails with its first fault, or is blocked.

ghost use Rattle.std.specs.Prelude.{◌≡◌, ◌==◌, ◌++◌, ◌∷◌, [], Some, length, map, option_map, slice_get, true, IfErr, OnOk, OnErr};
ghost use Rattle.llb_model.specs.Outcome.{ending_in, output_in};
ghost use Rattle.llb_plain.specs.OutcomeModelValues.{outcome_of};
ghost use Rattle.llb_plain.specs.CallResults.{is_memory};

use crate::fault::PlainFault;
use llb_events::VertexFault;
use llb_execution::Outputs;
use llb_loader::Edge;
use llb_tree::Tree;
use llb_wire::Many;
use std::alloc::Global;
use std::marker::Model;

/// How a vertex ends.
#[derive(Drop)]
pub enum Outcome {
    /// The vertex is done, with these outputs in the order of their numbers.
    Done(Many<Tree>),
    /// The vertex failed, with this first fault.
    Failed(VertexFault),
    /// The vertex can't run, since one of its inputs is not done.
    Blocked,
}

impl Outcome {
    /// Returns the output with this number, if the vertex is done and has that output.
    pub fn output(&self, index: u32) -> Option<&Tree>
        ensures { option_map (λ t. t.now) result ≡ output_in (ending_in (Some (outcome_of self.now))) index }
    {
        match self {
            Outcome::Done(outputs) => outputs.as_slice().get(index as usize),
            _ => None,
        }
    }
}

/// The outcomes of vertices, by vertex number. Contracts see a value of this type as a list of the model's outcomes.
pub struct Outcomes {
    items: Vec<Outcome>,
}

impl Drop for Outcomes {
    fn drop(self) {
        let Outcomes { items: _ } = self;
    }
}

impl Model for Outcomes {
    ghost use Rattle.std.specs.Coded.{codes};
    ghost use Rattle.std.specs.Prelude.{List, map};
    ghost use Rattle.llb_tree.specs.CodedTrees.{coded_tree};
    ghost use Rattle.llb_model.specs.Outcome as model;
    ghost use Rattle.llb_plain.specs.OutcomeModelValues.{outcome_of};

    ghost Value = { List model.Outcome };

    ghost coded = { Prim.hlevel (codes, coded_tree) };

    ghost view = { λ o. map outcome_of o.items.items };
}

impl Outcomes {
    // Makes an empty list of outcomes.
    pub(crate) fn new(alloc: Global) -> Outcomes
        ensures { result ≡ [] }
    {
        Outcomes {
            items: Vec::new(alloc),
        }
    }

    /// Appends the outcome of the next vertex.
    pub(crate) fn push(&mut self, outcome: Outcome) -> Result<(), PlainFault>
        ensures ok { OnOk result (self.new ≡ self.old ++ outcome_of outcome ∷ []) }
        ensures err { OnErr result (self.new ≡ self.old) }
        ensures memory { IfErr result (λ e. is_memory e ≡ true) }
    {
        self.items.push(outcome)?;
        Ok(())
    }

    /// Returns the outcomes, by vertex number.
    pub fn as_slice(&self) -> &[Outcome]
        ensures { map outcome_of result.now ≡ self.now }
    {
        self.items.as_slice()
    }

    /// Returns the outcome of a vertex; `None` if no vertex has that number.
    pub fn get(&self, vertex: u32) -> Option<&Outcome>
        ensures { option_map (λ o. outcome_of o.now) result ≡ slice_get self.now vertex }
    {
        self.items.get(vertex as usize)
    }

    /// Returns how many outcomes there are: one for each vertex.
    pub fn len(&self) -> usize
        ensures { result ≡ length self.now }
    {
        self.items.len()
    }

    /// Returns whether there are no outcomes.
    pub fn is_empty(&self) -> bool
        ensures { result ≡ (length self.now == 0) }
    {
        self.items.is_empty()
    }
}

impl Outputs for Outcomes {
    ghost use Rattle.llb_plain.specs.OutcomeModelValues.{ending_among};

    ghost ending = { ending_among };

    fn tree(&self, edge: Edge) -> Option<&Tree> {
        self.get(edge.vertex)?.output(edge.index)
    }
}
