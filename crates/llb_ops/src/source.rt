//! Sources and their attributes, with the names of `ops.proto` of BuildKit.

ghost use Rattle.std.specs.Prelude.{◌≡◌, ◌++◌, IfOk, OnOk, map};
ghost use Rattle.llb_ops.specs.Attributes.{entry_of, settled};
ghost use Rattle.llb_ops.specs.Writing.{attribute_entry_bytes, messages_field};

use crate::fault::OpFault;
use crate::message::{Message, each};
use crate::records::{Record, last_text, unnamed, within_limits};
use crate::table::MessageName;
use crate::writing::{put_bytes, put_extra, put_set_bytes};
use indexmap::IndexMap;
use llb_wire::{Bytes, Many, Memory, Text};
use std::alloc::Global;
use std::marker::Model;

/// `SourceOp`: a tree from outside the graph, named by `identifier`.
pub struct SourceOp {
    pub identifier: Text,
    pub attrs: Attributes,
    pub extra: Bytes,
}

impl Drop for SourceOp {
    fn drop(self) {
        let SourceOp {
            identifier: _,
            attrs: _,
            extra: _,
        } = self;
    }
}

/// The attributes of a source by their keys. If several entries of the map have the same key, the last one counts, at the index of the first one.
/// Contracts see the list of keys and attributes.
pub struct Attributes {
    held: IndexMap<Text, Attribute>,
}

impl Drop for Attributes {
    fn drop(self) {
        let Attributes { held: _ } = self;
    }
}

/// The value of an attribute, with the extra bytes of the map entry that the value comes from.
pub struct Attribute {
    pub value: Text,
    pub extra: Bytes,
}

impl Drop for Attribute {
    fn drop(self) {
        let Attribute { value: _, extra: _ } = self;
    }
}

/// An entry of the map of attributes. The entry is a message: its field 1 is the key, and its field 2 the value.
#[derive(Drop)]
pub struct AttributeEntry {
    pub key: Text,
    pub value: Text,
    pub extra: Bytes,
}

impl Model for Attributes {
    ghost use Rattle.std.specs.Prelude.{List};
    ghost use Rattle.llb_ops.specs.Attributes.{Held};

    ghost Value = { List Held };

    ghost view = { λ a. a.held.entries };
}

impl Attributes {
    /// Makes the attributes of a source from a map of keys to attributes, without a copy.
    pub fn new(held: IndexMap<Text, Attribute>) -> Attributes
        ensures { result ≡ held.entries }
    {
        Attributes { held }
    }

    /// Returns the attributes as a map, in the order in which keys were first given.
    pub fn as_map(&self) -> &IndexMap<Text, Attribute>
        ensures { result.now.entries ≡ self.now }
    {
        &self.held
    }

    // Returns the attributes of these entries. If several entries have the same key, the last one counts, at the index of the first one.
    pub(crate) fn settled(
        alloc: Global,
        entries: Many<AttributeEntry>,
    ) -> Result<Attributes, Memory>
        ensures { IfOk result (λ a. a ≡ settled entries) }
    {
        let mut held = IndexMap::new(alloc);
        for entry in entries.into_vec() {
            let attribute = Attribute {
                value: entry.value,
                extra: entry.extra,
            };
            held.insert(entry.key, attribute)?;
        }
        Ok(Attributes { held })
    }
}

impl Message for AttributeEntry {
    ghost use Rattle.llb_ops.specs.Messages.{attribute_entry_shape, attribute_entry_in};

    ghost shape = { attribute_entry_shape };

    fn name() -> MessageName {
        MessageName::AttributeEntry
    }

    ghost reading = { attribute_entry_in };

    #[tactic(auto, unfolding(crate::specs::Messages::attribute_entry_in))]
    fn read(alloc: Global, records: &[Record<'_>]) -> Result<AttributeEntry, OpFault> {
        let key = last_text(alloc, MessageName::AttributeEntry, records, 1)?;
        let value = last_text(alloc, MessageName::AttributeEntry, records, 2)?;
        let extra = unnamed(alloc, MessageName::AttributeEntry, records)?;
        Ok(AttributeEntry { key, value, extra })
    }

    ghost use Rattle.llb_ops.specs.Writing.{attribute_entry_bytes};

    ghost writing = { attribute_entry_bytes };

    fn write(&self, alloc: Global) -> Result<Vec<u8>, Memory> {
        written_entry(alloc, &self.key, &self.value, &self.extra)
    }
}

// Returns the bytes of an entry of the map: key and value are both written, even if they are empty.
#[tactic(auto, unfolding(crate::specs::Writing::attribute_entry_bytes))]
fn written_entry(alloc: Global, key: &Text, value: &Text, extra: &Bytes) -> Result<Vec<u8>, Memory>
    ensures { IfOk result (λ v. v.items ≡ attribute_entry_bytes (record { key = key.now; value = value.now; extra = extra.now })) }
{
    let mut out = Vec::new(alloc);
    put_set_bytes(&mut out, 1, key.as_str().as_bytes())?;
    put_set_bytes(&mut out, 2, value.as_str().as_bytes())?;
    put_extra(&mut out, extra)?;
    Ok(out)
}

// Writes each attribute as an entry of the map, in a record of field 2.
fn put_attributes(alloc: Global, out: &mut Vec<u8>, attrs: &Attributes) -> Result<(), Memory>
    ensures { OnOk result (out.new.items ≡ out.old.items ++ messages_field attribute_entry_bytes 2 (map entry_of attrs.now)) }
{
    for (key, attribute) in attrs.held.iter() {
        let bytes = written_entry(alloc, key, &attribute.value, &attribute.extra)?;
        put_set_bytes(out, 2, &bytes)?;
    }
    Ok(())
}

impl Message for SourceOp {
    ghost use Rattle.llb_ops.specs.Messages.{source_op_shape, source_op_in};

    ghost shape = { source_op_shape };

    fn name() -> MessageName {
        MessageName::SourceOp
    }

    ghost reading = { source_op_in };

    #[tactic(auto, unfolding(crate::specs::Messages::source_op_in))]
    fn read(alloc: Global, records: &[Record<'_>]) -> Result<SourceOp, OpFault> {
        let entries = each::<AttributeEntry>(alloc, records, 2)?;
        if !within_limits(&[2], records) {
            return Err(OpFault::OverLimit);
        }
        let attrs = Attributes::settled(alloc, entries)?;
        let identifier = last_text(alloc, MessageName::SourceOp, records, 1)?;
        let extra = unnamed(alloc, MessageName::SourceOp, records)?;
        Ok(SourceOp {
            identifier,
            attrs,
            extra,
        })
    }

    ghost use Rattle.llb_ops.specs.Writing.{source_op_bytes};

    ghost writing = { source_op_bytes };

    #[tactic(auto, unfolding(crate::specs::Writing::source_op_bytes))]
    fn write(&self, alloc: Global) -> Result<Vec<u8>, Memory> {
        let mut out = Vec::new(alloc);
        put_bytes(&mut out, 1, self.identifier.as_str().as_bytes())?;
        put_attributes(alloc, &mut out, &self.attrs)?;
        put_extra(&mut out, &self.extra)?;
        Ok(out)
    }
}
