//! Finds what in a graph writes the byte 255, with which each token begins. Nothing here allocates.

ghost use Rattle.std.specs.Prelude.{◌≡◌, ◌↔◌, [], IsTrue, unwrap_or};
ghost use Rattle.std.specs.List.{list_any};
ghost use Rattle.llb_ops.specs.declared.file_op.Action.{Action};
ghost use Rattle.llb_applet.specs.declared.joined_commands.Joined.{Joined};
ghost use Rattle.llb_model.specs.Program.{setting_of, steps_of};
ghost use Rattle.llb_laws.specs.ContentLaws.{has_mark, writes_mark, body_has_mark, step_writes_mark};
ghost use Rattle.llb_laws.specs.TokenPlans.{at_root};
ghost use Rattle.llb_laws.specs.TokenRuns.{WritesNoMarkAtAll};

use llb_applet::{Command, Joined, Script};
use llb_loader::Graph;
use llb_ops::{Action, ActionKind, ExecOp, Kind};
use llb_wire::Text;

/// Returns whether a content has the byte 255.
pub(crate) fn has_mark(bytes: &[u8]) -> bool
    ensures { result ≡ has_mark bytes.now }
{
    for byte in bytes {
        if *byte == 255 {
            return true;
        }
    }
    false
}

// Returns whether a text has the byte 255.
fn text_has_mark(text: &Text) -> bool
    ensures { result ≡ has_mark text.now }
{
    has_mark(text.as_str().as_bytes())
}

// Returns whether one of these texts has the byte 255.
fn have_mark(texts: &[Text]) -> bool
    ensures { result ≡ list_any has_mark texts.now }
{
    for text in texts {
        if text_has_mark(text) {
            return true;
        }
    }
    false
}

// Returns whether a command of an exec with these variables writes the byte 255.
#[tactic(auto, using(crate::proofs::WritesAndDigests::line_mark, crate::proofs::WritesAndDigests::lines_mark))]
fn writes_mark(env: &[Text], command: &Command) -> bool
    ensures { result ≡ writes_mark (at_root env.now) command.now }
{
    match command {
        Command::Write { path: _, word } => text_has_mark(word),
        Command::Append { path: _, word } => text_has_mark(word),
        Command::Envfile { out: _ } => have_mark(env),
        _ => false,
    }
}

// Returns whether one of these commands writes the byte 255.
fn write_mark(env: &[Text], commands: &[Joined]) -> bool
    ensures { result ≡ list_any (λ (c : Joined). writes_mark (at_root env.now) c.command) commands.now }
{
    for joined in commands {
        if writes_mark(env, &joined.command) {
            return true;
        }
    }
    false
}

// Returns the variables of an exec.
fn env_of(exec: &ExecOp) -> &[Text]
    ensures { result.now ≡ (setting_of exec.now.meta).env }
{
    match &exec.meta {
        Some(meta) => meta.env.as_slice(),
        None => &[],
    }
}

/// Returns whether an action writes the byte 255.
pub fn body_has_mark(action: &Action) -> bool
    ensures { result ≡ body_has_mark action.now.kind }
{
    match &action.kind {
        Some(ActionKind::MkFile(mkfile)) => has_mark(mkfile.body.as_slice()),
        _ => false,
    }
}

/// Returns whether one of these actions writes the byte 255.
pub fn bodies_have_mark(actions: &[Action]) -> bool
    ensures { result ≡ list_any (λ (a : Action). body_has_mark a.kind) actions.now }
{
    for action in actions {
        if body_has_mark(action) {
            return true;
        }
    }
    false
}

/// Returns the commands of a script; none if there is no script.
pub(crate) fn commands_of(script: &Option<Script>) -> &[Joined]
    ensures { result.now ≡ unwrap_or script.now [] }
{
    match script {
        Some(script) => script.commands(),
        None => &[],
    }
}

// Returns whether an op of this kind writes the byte 255; for an exec, `script` has the commands.
#[tactic(auto, using(crate::proofs::WritesAndDigests::runs_write, crate::proofs::WritesAndDigests::acts_write, crate::proofs::WritesAndDigests::lays_write))]
fn op_writes_mark(kind: &Option<Kind>, script: &Option<Script>) -> bool
    ensures { result ≡ list_any step_writes_mark (steps_of kind.now script.now) }
{
    match kind {
        Some(Kind::File(file)) => bodies_have_mark(file.actions.as_slice()),
        Some(Kind::Merge(merge)) => {
            let _ = merge;
            false
        }
        Some(Kind::Exec(exec)) => write_mark(env_of(exec.get()), commands_of(script)),
        _ => false,
    }
}

/// Returns whether no vertex of a graph writes the byte 255. (A `listing` does not, if paths consist of names.)
pub fn writes_no_mark(graph: &Graph) -> bool
    ensures { IsTrue result ↔ WritesNoMarkAtAll graph.now }
{
    for vertex in graph.vertices() {
        if op_writes_mark(&vertex.op.kind, &vertex.script) {
            return false;
        }
    }
    true
}
