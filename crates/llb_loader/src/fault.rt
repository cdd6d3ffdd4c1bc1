//! The faults of loading. A fault prints what comes after the word `fault` in a refusal: its number, and then its
//! arguments; a feature or a rule is printed as its name. The operator `?` turns each error for refused memory into `Memory`.

ghost use Rattle.std.specs.Prelude.{◌≡◌, Some, codes};
ghost use Rattle.std.specs.Fmt.{◌++?◌, DisplaysOnOk, decimal};
ghost use Rattle.llb_loader.specs.Faults.{load_text, feature_text, rule_name, rule_text};

use llb_applet::ScriptFault;
use llb_ops::OpFault;
use std::alloc::{AllocError, AllocFailed};
use std::{error, fmt};
use thiserror::Error;

/// Why a definition is refused. If several faults apply, the one with the least number is reported; of several with that number, the one with the
/// least row; and of that row the first faulty input, feature or rule.
#[derive(Drop)]
pub enum LoadFault {
    /// 81: the definition is not readable; its fault follows.
    Definition(OpFault),
    /// 82: the bytes of row k are no op; their fault follows.
    Entry(u32, OpFault),
    /// 83: there are fewer than two distinct rows.
    TooFew,
    /// 84: row k has the digest of an earlier row, but other bytes.
    Collision(u32),
    /// 85: the terminal has no input.
    NoResult,
    /// 86: input i of row k names no row.
    UnknownDigest(u32, u32),
    /// 87: there is a cycle among the rows on which the result depends.
    Cycle,
    /// 88: the op of row k has an unsupported feature; the feature's name follows.
    Unsupported(u32, Feature),
    /// 89: the op of row k breaks a rule; the rule's name follows.
    Invalid(u32, Rule),
    /// 90: input i of row k names an output that does not exist.
    BadIndex(u32, u32),
    /// 91: memory was refused.
    Memory,
}

impl fmt::Display for LoadFault {
    ghost output = { λ e. Some (load_text e) };

    fn fmt<W: fmt::Write>(&self, f: &mut fmt::Formatter<W>) -> fmt::Result {
        match self {
            LoadFault::Definition(fault) => write!(f, "81 {fault}"),
            LoadFault::Entry(row, fault) => at_row(f, "82", row, fault),
            LoadFault::TooFew => f.write_str("83"),
            LoadFault::Collision(row) => write!(f, "84 {row}"),
            LoadFault::NoResult => f.write_str("85"),
            LoadFault::UnknownDigest(row, input) => at_row(f, "86", row, input),
            LoadFault::Cycle => f.write_str("87"),
            LoadFault::Unsupported(row, feature) => at_row(f, "88", row, feature),
            LoadFault::Invalid(row, rule) => at_row(f, "89", row, rule),
            LoadFault::BadIndex(row, input) => at_row(f, "90", row, input),
            LoadFault::Memory => f.write_str("91"),
        }
    }
}

// Writes the number of a fault, the number of the row that has the fault, and the fault's second argument.
fn at_row<W: fmt::Write, T: fmt::Display>(
    f: &mut fmt::Formatter<W>,
    number: &str,
    row: &u32,
    what: &T,
) -> fmt::Result
    ensures { DisplaysOnOk W.write_str_gives f.old result
        (Some number.now ++? Some (codes " ") ++? Some (decimal row.now) ++? Some (codes " ") ++? T.output what.now) f.new }
{
    write!(f, "{number} {row} {what}")
}

// This `Debug` is written by hand. It prints what `Display` prints.
impl fmt::Debug for LoadFault {
    fn fmt<W: fmt::Write>(&self, f: &mut fmt::Formatter<W>) -> fmt::Result {
        fmt::Display::fmt(self, f)
    }
}

impl error::Error for LoadFault {}

/// An unsupported feature of an op. If an op has several, the fault names the first one, in the order of the variants.
#[derive(Clone, Copy, Debug, PartialEq, Eq)]
pub enum Feature {
    /// A diff op.
    DiffOp,
    /// A build op.
    BuildOp,
    /// A source other than a local one.
    Source,
    /// A mount of a secret.
    SecretMount,
    /// A mount of an SSH agent.
    SshMount,
    /// A secret in the environment.
    SecretEnv,
    /// An action that is no copy, mkfile, mkdir or rm.
    Action,
    /// A copy that unpacks archives.
    Unpack,
    /// A copy with patterns of what to include or exclude.
    Patterns,
    /// An owner that is given by name.
    OwnerByName,
    /// A copy with a field that the table of messages does not name.
    CopyField,
}

impl Feature {
    // Returns the name that is printed for the feature.
    fn name(&self) -> &'static str
        ensures { result.now ≡ feature_text self.now }
    {
        match self {
            Feature::DiffOp => "DiffOp",
            Feature::BuildOp => "BuildOp",
            Feature::Source => "Source",
            Feature::SecretMount => "SecretMount",
            Feature::SshMount => "SshMount",
            Feature::SecretEnv => "SecretEnv",
            Feature::Action => "Action",
            Feature::Unpack => "Unpack",
            Feature::Patterns => "Patterns",
            Feature::OwnerByName => "OwnerByName",
            Feature::CopyField => "CopyField",
        }
    }
}

/// Prints the name of a feature.
impl fmt::Display for Feature {
    ghost output = { λ x. Some (feature_text x) };

    fn fmt<W: fmt::Write>(&self, f: &mut fmt::Formatter<W>) -> fmt::Result {
        f.write_str(self.name())
    }
}

/// The rules that ops must meet, in the order in which they are checked. A fault with one of these variants says that an op breaks the rule of this variant.
#[derive(Drop)]
pub enum Rule {
    /// The op must have a kind.
    NoKind,
    /// A local source must have a name after `local://`.
    LocalName,
    /// A file op must have at least one action.
    NoActions,
    /// An action must read inputs of the op, results of earlier actions, or nothing.
    ActionInput,
    /// The outputs of actions must be numbered from 0, each once.
    ActionOutput,
    /// An exec must have a `meta`.
    NoMeta,
    /// An exec must have at least one word in `args`.
    NoArgs,
    /// An exec must have at least one mount.
    NoMounts,
    /// An exec must have a mount with the dest `/`.
    NoRoot,
    /// The dests, the selectors and the cwd of an exec must be paths.
    BadPath,
    /// No two mounts of an exec may have the same dest.
    SameDest,
    /// The type of a mount must be a number from 0 to 4.
    MountKind,
    /// The input of a bind or cache mount must be an input of the op, or -1.
    MountInput,
    /// The outputs of mounts must be numbered from 0, each once, and only bind mounts may have one.
    MountOutput,
    /// A cache mount must have a `cacheOpt`.
    NoCacheOpt,
    /// The mode of a cache mount must be a number from 0 to 2.
    Sharing,
    /// No two cache mounts of an exec may have the same key.
    CacheTwice,
    /// The words of an exec must be a script; the fault of the words, 71 to 73, follows.
    Script(ScriptFault),
    /// Each input of a merge must be an input of the op, or -1.
    MergeInput,
}

impl Rule {
    // Returns the name of the rule, without the fault of a script.
    fn name(&self) -> &'static str
        ensures { result.now ≡ rule_name self.now }
    {
        match self {
            Rule::NoKind => "NoKind",
            Rule::LocalName => "LocalName",
            Rule::NoActions => "NoActions",
            Rule::ActionInput => "ActionInput",
            Rule::ActionOutput => "ActionOutput",
            Rule::NoMeta => "NoMeta",
            Rule::NoArgs => "NoArgs",
            Rule::NoMounts => "NoMounts",
            Rule::NoRoot => "NoRoot",
            Rule::BadPath => "BadPath",
            Rule::SameDest => "SameDest",
            Rule::MountKind => "MountKind",
            Rule::MountInput => "MountInput",
            Rule::MountOutput => "MountOutput",
            Rule::NoCacheOpt => "NoCacheOpt",
            Rule::Sharing => "Sharing",
            Rule::CacheTwice => "CacheTwice",
            Rule::Script(_) => "Script",
            Rule::MergeInput => "MergeInput",
        }
    }
}

/// Prints the name of a rule; after the name `Script` the fault of the script follows.
impl fmt::Display for Rule {
    ghost output = { λ r. Some (rule_text r) };

    fn fmt<W: fmt::Write>(&self, f: &mut fmt::Formatter<W>) -> fmt::Result {
        match self {
            Rule::Script(fault) => write!(f, "Script {fault}"),
            _ => f.write_str(self.name()),
        }
    }
}

// This `Debug` is written by hand. It prints what `Display` prints.
impl fmt::Debug for Rule {
    fn fmt<W: fmt::Write>(&self, f: &mut fmt::Formatter<W>) -> fmt::Result {
        fmt::Display::fmt(self, f)
    }
}

/// 92: memory was refused for local trees, or to copy them or a graph.
#[derive(Clone, Copy, Debug, PartialEq, Eq, Error)]
#[error("92")]
pub struct Memory;

impl<T: Drop> From<AllocFailed<T>> for Memory {
    fn from(_: AllocFailed<T>) -> Memory {
        Memory
    }
}

impl From<AllocError> for Memory {
    fn from(_: AllocError) -> Memory {
        Memory
    }
}

impl From<llb_wire::Memory> for Memory {
    fn from(_: llb_wire::Memory) -> Memory {
        Memory
    }
}

impl From<Memory> for llb_wire::Memory {
    fn from(_: Memory) -> llb_wire::Memory {
        llb_wire::Memory
    }
}

impl From<OpFault> for LoadFault {
    ghost use Rattle.std.specs.Prelude.{◌≡◌};
    ghost use Rattle.llb_loader.specs.Faults.{definition_fault};

    ghost from_gives = { λ f e. e ≡ definition_fault f };

    fn from(fault: OpFault) -> LoadFault {
        match fault {
            OpFault::Memory => LoadFault::Memory,
            other => LoadFault::Definition(other),
        }
    }
}

impl From<AllocError> for LoadFault {
    ghost use Rattle.std.specs.Prelude.{◌≡◌};
    ghost use Rattle.llb_loader.specs.declared.fault.LoadFault.TheVariants as fault;

    ghost from_gives = { λ _ e. e ≡ fault.Memory };

    fn from(_: AllocError) -> LoadFault {
        LoadFault::Memory
    }
}

impl<T: Drop> From<AllocFailed<T>> for LoadFault {
    ghost use Rattle.std.specs.Prelude.{◌≡◌};
    ghost use Rattle.llb_loader.specs.declared.fault.LoadFault.TheVariants as fault;

    ghost from_gives = { λ _ e. e ≡ fault.Memory };

    fn from(_: AllocFailed<T>) -> LoadFault {
        LoadFault::Memory
    }
}

impl From<llb_wire::Memory> for LoadFault {
    ghost use Rattle.std.specs.Prelude.{◌≡◌};
    ghost use Rattle.llb_loader.specs.declared.fault.LoadFault.TheVariants as fault;

    ghost from_gives = { λ _ e. e ≡ fault.Memory };

    fn from(_: llb_wire::Memory) -> LoadFault {
        LoadFault::Memory
    }
}
