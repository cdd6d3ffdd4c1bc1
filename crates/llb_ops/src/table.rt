//! The table of messages: the fields of each message of `ops.proto` of BuildKit, by name, number and kind. The table
//! says how each field is read, and in which order canonical bytes have the fields.

ghost use Rattle.std.specs.Prelude.{◌≡◌, map, option_map};
ghost use Rattle.llb_ops.specs.Table.{form_of_kind, rows_of, row_seen, row_numbered, row_named, AreRowsApart};

use crate::payloads_and_limits::Form;

/// A message of the table.
#[derive(Clone, Copy)]
pub enum MessageName {
    Definition,
    Op,
    Input,
    SourceOp,
    /// An entry of the map of attributes of a source.
    AttributeEntry,
    FileOp,
    FileAction,
    FileActionCopy,
    FileActionMkFile,
    FileActionMkDir,
    FileActionRm,
    ChownOpt,
    UserOpt,
    ExecOp,
    Meta,
    Mount,
    TmpfsOpt,
    CacheOpt,
    MergeOp,
    MergeInput,
}

/// What a field holds. `Bytes` is also the kind of a field whose message is not read.
#[derive(Clone, Copy)]
pub enum FieldKind {
    Int64,
    Int32,
    Uint32,
    Enum,
    Bool,
    String,
    Bytes,
    Message(MessageName),
}

impl FieldKind {
    // Returns how the payload of a field of this kind is read.
    pub(crate) fn form(self) -> Form
        ensures { result ≡ form_of_kind self }
    {
        match self {
            FieldKind::Int64
            | FieldKind::Int32
            | FieldKind::Uint32
            | FieldKind::Enum
            | FieldKind::Bool => Form::Number,
            FieldKind::String => Form::Text,
            FieldKind::Bytes | FieldKind::Message(_) => Form::Bytes,
        }
    }
}

/// A field as the table describes it: its number, its kind, and how often and where it may occur.
#[derive(Clone, Copy)]
pub struct NamedField {
    pub number: u32,
    pub kind: FieldKind,
    pub repeated: bool,
    /// Whether the field is a member of the message's oneof.
    pub member: bool,
    /// Whether the field is the key or the value in an entry of a map, which are written even if they are empty.
    pub of_entry: bool,
}

/// A field with its name.
#[derive(Clone, Copy)]
pub struct FieldRow {
    pub name: &'static str,
    pub field: NamedField,
}

macro_rules! row {
    ($name:literal, $number:literal, $kind:expr, $repeated:literal, $member:literal, $of_entry:literal) => {
        FieldRow {
            name: $name,
            field: NamedField {
                number: $number,
                kind: $kind,
                repeated: $repeated,
                member: $member,
                of_entry: $of_entry,
            },
        }
    };
}

macro_rules! once {
    ($name:literal, $number:literal, $kind:expr) => {
        row!($name, $number, $kind, false, false, false)
    };
}

macro_rules! each {
    ($name:literal, $number:literal, $kind:expr) => {
        row!($name, $number, $kind, true, false, false)
    };
}

macro_rules! member {
    ($name:literal, $number:literal, $kind:expr) => {
        row!($name, $number, $kind, false, true, false)
    };
}

macro_rules! of_entry {
    ($name:literal, $number:literal, $kind:expr) => {
        row!($name, $number, $kind, false, false, true)
    };
}

const DEFINITION: [FieldRow; 3] = [
    each!("def", 1, FieldKind::Bytes),
    each!("metadata", 2, FieldKind::Bytes),
    once!("Source", 3, FieldKind::Bytes),
];

const OP: [FieldRow; 7] = [
    each!("inputs", 1, FieldKind::Message(MessageName::Input)),
    member!("exec", 2, FieldKind::Message(MessageName::ExecOp)),
    member!("source", 3, FieldKind::Message(MessageName::SourceOp)),
    member!("file", 4, FieldKind::Message(MessageName::FileOp)),
    member!("build", 5, FieldKind::Bytes),
    member!("merge", 6, FieldKind::Message(MessageName::MergeOp)),
    member!("diff", 7, FieldKind::Bytes),
];

const INPUT: [FieldRow; 2] = [
    once!("digest", 1, FieldKind::String),
    once!("index", 2, FieldKind::Int64),
];

const SOURCE_OP: [FieldRow; 2] = [
    once!("identifier", 1, FieldKind::String),
    each!("attrs", 2, FieldKind::Message(MessageName::AttributeEntry)),
];

const ATTRIBUTE_ENTRY: [FieldRow; 2] = [
    of_entry!("key", 1, FieldKind::String),
    of_entry!("value", 2, FieldKind::String),
];

const FILE_OP: [FieldRow; 1] = [each!("actions", 2, FieldKind::Message(MessageName::FileAction))];

const FILE_ACTION: [FieldRow; 7] = [
    once!("input", 1, FieldKind::Int64),
    once!("secondaryInput", 2, FieldKind::Int64),
    once!("output", 3, FieldKind::Int64),
    member!("copy", 4, FieldKind::Message(MessageName::FileActionCopy)),
    member!(
        "mkfile",
        5,
        FieldKind::Message(MessageName::FileActionMkFile)
    ),
    member!("mkdir", 6, FieldKind::Message(MessageName::FileActionMkDir)),
    member!("rm", 7, FieldKind::Message(MessageName::FileActionRm)),
];

const FILE_ACTION_COPY: [FieldRow; 13] = [
    once!("src", 1, FieldKind::String),
    once!("dest", 2, FieldKind::String),
    once!("owner", 3, FieldKind::Message(MessageName::ChownOpt)),
    once!("mode", 4, FieldKind::Int32),
    once!("followSymlink", 5, FieldKind::Bool),
    once!("dirCopyContents", 6, FieldKind::Bool),
    once!("attemptUnpackDockerCompatibility", 7, FieldKind::Bool),
    once!("createDestPath", 8, FieldKind::Bool),
    once!("allowWildcard", 9, FieldKind::Bool),
    once!("allowEmptyWildcard", 10, FieldKind::Bool),
    once!("timestamp", 11, FieldKind::Int64),
    each!("include_patterns", 12, FieldKind::String),
    each!("exclude_patterns", 13, FieldKind::String),
];

const FILE_ACTION_MK_FILE: [FieldRow; 5] = [
    once!("path", 1, FieldKind::String),
    once!("mode", 2, FieldKind::Int32),
    once!("data", 3, FieldKind::Bytes),
    once!("owner", 4, FieldKind::Message(MessageName::ChownOpt)),
    once!("timestamp", 5, FieldKind::Int64),
];

const FILE_ACTION_MK_DIR: [FieldRow; 5] = [
    once!("path", 1, FieldKind::String),
    once!("mode", 2, FieldKind::Int32),
    once!("makeParents", 3, FieldKind::Bool),
    once!("owner", 4, FieldKind::Message(MessageName::ChownOpt)),
    once!("timestamp", 5, FieldKind::Int64),
];

const FILE_ACTION_RM: [FieldRow; 3] = [
    once!("path", 1, FieldKind::String),
    once!("allowNotFound", 2, FieldKind::Bool),
    once!("allowWildcard", 3, FieldKind::Bool),
];

const CHOWN_OPT: [FieldRow; 2] = [
    once!("user", 1, FieldKind::Message(MessageName::UserOpt)),
    once!("group", 2, FieldKind::Message(MessageName::UserOpt)),
];

const USER_OPT: [FieldRow; 2] = [
    member!("byName", 1, FieldKind::Bytes),
    member!("byID", 2, FieldKind::Uint32),
];

const EXEC_OP: [FieldRow; 5] = [
    once!("meta", 1, FieldKind::Message(MessageName::Meta)),
    each!("mounts", 2, FieldKind::Message(MessageName::Mount)),
    once!("network", 3, FieldKind::Enum),
    once!("security", 4, FieldKind::Enum),
    each!("secretenv", 5, FieldKind::Bytes),
];

const META: [FieldRow; 4] = [
    each!("args", 1, FieldKind::String),
    each!("env", 2, FieldKind::String),
    once!("cwd", 3, FieldKind::String),
    once!("user", 4, FieldKind::String),
];

const MOUNT: [FieldRow; 8] = [
    once!("input", 1, FieldKind::Int64),
    once!("selector", 2, FieldKind::String),
    once!("dest", 3, FieldKind::String),
    once!("output", 4, FieldKind::Int64),
    once!("readonly", 5, FieldKind::Bool),
    once!("mountType", 6, FieldKind::Enum),
    once!("TmpfsOpt", 19, FieldKind::Message(MessageName::TmpfsOpt)),
    once!("cacheOpt", 20, FieldKind::Message(MessageName::CacheOpt)),
];

const TMPFS_OPT: [FieldRow; 1] = [once!("size", 1, FieldKind::Int64)];

const CACHE_OPT: [FieldRow; 2] = [
    once!("ID", 1, FieldKind::String),
    once!("sharing", 2, FieldKind::Enum),
];

const MERGE_OP: [FieldRow; 1] = [each!("inputs", 1, FieldKind::Message(MessageName::MergeInput))];

const MERGE_INPUT: [FieldRow; 1] = [once!("input", 1, FieldKind::Int64)];

/// Returns the fields of a message, in ascending order of their numbers.
pub fn fields_of(message: MessageName) -> &'static [FieldRow]
    ensures { map row_seen result.now ≡ rows_of message }
{
    match message {
        MessageName::Definition => &DEFINITION,
        MessageName::Op => &OP,
        MessageName::Input => &INPUT,
        MessageName::SourceOp => &SOURCE_OP,
        MessageName::AttributeEntry => &ATTRIBUTE_ENTRY,
        MessageName::FileOp => &FILE_OP,
        MessageName::FileAction => &FILE_ACTION,
        MessageName::FileActionCopy => &FILE_ACTION_COPY,
        MessageName::FileActionMkFile => &FILE_ACTION_MK_FILE,
        MessageName::FileActionMkDir => &FILE_ACTION_MK_DIR,
        MessageName::FileActionRm => &FILE_ACTION_RM,
        MessageName::ChownOpt => &CHOWN_OPT,
        MessageName::UserOpt => &USER_OPT,
        MessageName::ExecOp => &EXEC_OP,
        MessageName::Meta => &META,
        MessageName::Mount => &MOUNT,
        MessageName::TmpfsOpt => &TMPFS_OPT,
        MessageName::CacheOpt => &CACHE_OPT,
        MessageName::MergeOp => &MERGE_OP,
        MessageName::MergeInput => &MERGE_INPUT,
    }
}

/// Returns the field with this number; `None` if the table lacks such a field of the message.
#[tactic(auto, unfolding(crate::specs::Table::row_numbered))]
pub fn field_numbered(message: MessageName, number: u32) -> Option<FieldRow>
    ensures { option_map row_seen result ≡ row_numbered message number }
{
    for row in fields_of(message) {
        if row.field.number == number {
            return Some(*row);
        }
    }
    None
}

/// Returns the field with this name; `None` if the table lacks such a field of the message.
#[tactic(auto, unfolding(crate::specs::Table::row_named))]
pub fn field_named(message: MessageName, name: &[u8]) -> Option<FieldRow>
    ensures { option_map row_seen result ≡ row_named message name.now }
{
    for row in fields_of(message) {
        if row.name.as_bytes() == name {
            return Some(*row);
        }
    }
    None
}

/// Proves that each row is found by its number and by its name: no two rows of a message have the same number or the same name.
pub fn rows_are_apart(message: MessageName)
    ensures { AreRowsApart message }
{
    let _ = message;
}
