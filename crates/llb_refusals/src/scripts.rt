//! Calls on views and scripts, and commands that run on a view, while memory is refused.

use super::refused_growths::{Row, Trial, are_refused};
use super::value_texts::{path_of, printed_fault, printed_text, printed_tree, say, text_of};
use super::values_from_texts::tree_named;
use llb_applet::{
    Cause, Command, Joined, Script, ScriptFault, Setting, View, What, read_script, run_command,
    why_failed,
};
use llb_mount::Shown;
use llb_wire::{Many, Same, Text};
use std::alloc::Global;
use std::process::Abort;

#[derive(Drop)]
enum Answer {
    None,
    View(Result<View, llb_mount::Memory>),
    Shown(Result<Shown, llb_mount::Memory>),
    Setting(Result<Setting, llb_wire::Memory>),
    Script(Result<Script, ScriptFault>),
    Command(Result<Command, ScriptFault>),
    Ran(Result<u8, llb_applet::Memory>),
    Why(Result<Option<Cause>, llb_applet::Memory>),
}

// The arguments of a script; the script; the directory and the environment in which its commands run; a view, and a
// second view that is equal to it; and the mounts of a view twice, since `View::make` consumes mounts and is called twice.
#[derive(Drop)]
struct OnView {
    call: &'static str,
    args: Vec<Text>,
    script: Script,
    setting: Setting,
    view: View,
    twin: View,
    handed: Vec<Many<Shown>>,
    answer: Answer,
}

fn args_of(rt: &impl Abort, alloc: Global, text: &str) -> Vec<Text> {
    let mut args = Vec::new(alloc);
    for word in ["/bin/sh", "-c", text] {
        args.push(text_of(rt, alloc, word)).expect(rt, "memory");
    }
    args
}

fn read(alloc: Global, args: &[Text]) -> Answer {
    if args.is_empty() {
        return Answer::None;
    }
    Answer::Script(read_script(alloc, args))
}

// Returns the script that a text is read as. If the text is no script, returns the script of the text `true`.
fn script_of(rt: &impl Abort, alloc: Global, text: &str) -> Script {
    let args = args_of(rt, alloc, text);
    assert!(rt; !args.is_empty());
    match read_script(alloc, &args) {
        Ok(script) => script,
        Err(_) => {
            let args = args_of(rt, alloc, "true");
            assert!(rt; !args.is_empty());
            read_script(alloc, &args).expect(rt, "a script")
        }
    }
}

fn setting_of(rt: &impl Abort, alloc: Global) -> Setting {
    let mut env = Vec::new(alloc);
    env.push(text_of(rt, alloc, "A=1")).expect(rt, "memory");
    Setting {
        cwd: path_of(rt, alloc, "/"),
        env: Many::new(env),
    }
}

fn push_mount(
    rt: &impl Abort,
    mounts: &mut Vec<Shown>,
    dest: &str,
    from: &str,
    tree: &'static str,
) {
    let alloc = *mounts.allocator();
    let shown = Shown {
        dest: path_of(rt, alloc, dest),
        selector: path_of(rt, alloc, from),
        readonly: false,
        tree: tree_named(rt, alloc, tree),
    };
    mounts.push(shown).expect(rt, "memory");
}

// Returns the mounts of a view: a tree at `/`, a tmpfs at `/t`, and `/sub` of another tree at `/t/in`.
fn mounts_of(rt: &impl Abort, alloc: Global, root: &'static str) -> Vec<Shown> {
    let mut mounts = Vec::new(alloc);
    push_mount(rt, &mut mounts, "/", "/", root);
    push_mount(rt, &mut mounts, "/t", "/", "EMPTY");
    push_mount(rt, &mut mounts, "/t/in", "/sub", "SUB");
    mounts
}

fn view_of(rt: &impl Abort, mounts: Vec<Shown>) -> View {
    assert!(rt; View::can_make(&mounts));
    View::make(Many::new(mounts)).expect(rt, "a view")
}

// Returns the mounts of `mounts_of` twice, for two calls.
fn handed(rt: &impl Abort, alloc: Global, root: &'static str) -> Vec<Many<Shown>> {
    let mut handed = Vec::new(alloc);
    for _ in 0..2 {
        let mounts = mounts_of(rt, alloc, root);
        handed.push(Many::new(mounts)).expect(rt, "memory");
    }
    handed
}

fn view_made(mounts: Many<Shown>) -> Answer {
    if View::can_make(mounts.as_slice()) {
        return Answer::View(View::make(mounts));
    }
    Answer::None
}

fn made(handed: &mut Vec<Many<Shown>>) -> Answer {
    match handed.pop() {
        Some(mounts) => view_made(mounts),
        None => Answer::None,
    }
}

fn first_of(script: &Script) -> Option<&Joined> {
    script.commands().first()
}

fn copied_command(script: &Script) -> Answer {
    match first_of(script) {
        Some(joined) => Answer::Command(joined.command.copy()),
        None => Answer::None,
    }
}

fn copied_shown(view: &View) -> Answer {
    match view.mounts().last() {
        Some(shown) => Answer::Shown(shown.copy()),
        None => Answer::None,
    }
}

fn ran(alloc: Global, script: &Script, setting: &Setting, view: &mut View) -> Answer {
    match first_of(script) {
        Some(joined) => Answer::Ran(run_command(alloc, &joined.command, setting, view)),
        None => Answer::None,
    }
}

fn why(alloc: Global, script: &Script, setting: &Setting, view: &View) -> Answer {
    match first_of(script) {
        Some(joined) => Answer::Why(why_failed(alloc, &joined.command, setting, view)),
        None => Answer::None,
    }
}

fn word_of(what: What) -> &'static str {
    match what {
        What::TooLong => "TooLong",
        What::Nothing => "Nothing",
        What::NoFile => "NoFile",
        What::NoDir => "NoDir",
        What::IsFile => "IsFile",
        What::IsDir => "IsDir",
        What::IsThere => "IsThere",
        What::IsDest => "IsDest",
        What::NoSelector => "NoSelector",
        What::ReadOnly => "ReadOnly",
    }
}

// Returns what is wrong, and for a path its last name.
fn printed_cause(rt: &impl Abort, alloc: Global, cause: &Option<Cause>) -> String {
    match cause {
        None => printed_text(rt, alloc, "nothing"),
        Some(Cause::Always) => printed_text(rt, alloc, "Always"),
        Some(Cause::NoPath(_)) => printed_text(rt, alloc, "NoPath"),
        Some(Cause::At(what, path)) => {
            let mut text = printed_text(rt, alloc, word_of(*what));
            if let Some(name) = path.names().last() {
                say(rt, &mut text, " ");
                say(rt, &mut text, name.as_str());
            }
            text
        }
    }
}

// Returns the trees of a view, each after a `|`.
fn printed_view(rt: &impl Abort, alloc: Global, view: &View) -> String {
    let mut text = String::new(alloc);
    for shown in view.mounts() {
        say(rt, &mut text, "|");
        say(rt, &mut text, printed_tree(rt, alloc, &shown.tree).as_str());
    }
    text
}

fn printed_ran(rt: &impl Abort, alloc: Global, status: u8, view: &View) -> String {
    let mut text = printed_fault(rt, alloc, &status);
    say(rt, &mut text, printed_view(rt, alloc, view).as_str());
    text
}

impl OnView {
    fn is_same_script(&self, script: &Script) -> &'static str {
        if script.same(&self.script) {
            "the script"
        } else {
            "another"
        }
    }

    fn is_same_command(&self, command: &Command) -> &'static str {
        match first_of(&self.script) {
            Some(joined) if joined.command.same(command) => "the command",
            _ => "another",
        }
    }
}

impl OnView {
    // Makes the call, and returns its result.
    fn answered(&mut self, alloc: Global) -> Answer {
        let view = &mut self.view;
        match self.call {
            "View::make" => made(&mut self.handed),
            "View::copy" => Answer::View(view.copy()),
            "Shown::copy" => copied_shown(view),
            "Setting::copy" => Answer::Setting(self.setting.copy()),
            "read_script" => read(alloc, &self.args),
            "Script::copy" => Answer::Script(self.script.copy()),
            "Command::copy" => copied_command(&self.script),
            "why_failed" => why(alloc, &self.script, &self.setting, view),
            _ => ran(alloc, &self.script, &self.setting, view),
        }
    }
}

impl Trial for OnView {
    fn ready(rt: &impl Abort, alloc: Global, row: &Row) -> OnView {
        let (call, on, _, _) = *row;
        let (text, root) = on.split_once(" on ").unwrap_or((on, "EMPTY"));
        let view = view_of(
            rt,
            mounts_of(rt, alloc, root.trim_start_matches("copy of ")),
        );
        let twin = if root.starts_with("copy of ") {
            view.copy().expect(rt, "memory")
        } else {
            view_of(rt, mounts_of(rt, alloc, root))
        };
        OnView {
            call,
            args: args_of(rt, alloc, text),
            script: script_of(rt, alloc, text),
            setting: setting_of(rt, alloc),
            view,
            twin,
            handed: handed(rt, alloc, "EMPTY"),
            answer: Answer::None,
        }
    }

    fn call(&mut self, alloc: Global) {
        self.answer = self.answered(alloc);
    }

    fn printed(&self, rt: &impl Abort, alloc: Global) -> String {
        match &self.answer {
            Answer::None => printed_text(rt, alloc, "nothing"),
            Answer::View(Ok(view)) => printed_view(rt, alloc, view),
            Answer::Shown(Ok(shown)) => printed_tree(rt, alloc, &shown.tree),
            Answer::Setting(Ok(setting)) => printed_fault(rt, alloc, &setting.env.len()),
            Answer::Script(Ok(script)) => printed_text(rt, alloc, self.is_same_script(script)),
            Answer::Command(Ok(command)) => printed_text(rt, alloc, self.is_same_command(command)),
            Answer::Ran(Ok(status)) => printed_ran(rt, alloc, *status, &self.view),
            Answer::View(Err(fault)) | Answer::Shown(Err(fault)) => printed_fault(rt, alloc, fault),
            Answer::Script(Err(fault)) | Answer::Command(Err(fault)) => {
                printed_fault(rt, alloc, fault)
            }
            Answer::Setting(Err(fault)) => printed_fault(rt, alloc, fault),
            Answer::Ran(Err(fault)) => printed_fault(rt, alloc, fault),
            Answer::Why(Ok(cause)) => printed_cause(rt, alloc, cause),
            Answer::Why(Err(fault)) => printed_fault(rt, alloc, fault),
        }
    }

    fn is_as_before(&mut self, _rt: &impl Abort, _alloc: Global) -> bool {
        self.view.same(&self.twin)
    }
}

const SCRIPT: &str = "cp /t/in/f /t/x && cp /t/x /y && write /t/in/g k";

const MOUNTED: &str =
    "|d 0755 0 0 /\n|d 0755 0 0 /\n|d 0755 0 0 /\nd 0755 0 0 /sub\nf 0644 0 0 6869 /sub/f\n";

const ROWS: &[Row] = &[
    ("View::make", SCRIPT, "", MOUNTED),
    ("View::copy", SCRIPT, "62", MOUNTED),
    ("Shown::copy", SCRIPT, "62", "SUB"),
    ("Setting::copy", SCRIPT, "5", "1"),
    ("read_script", SCRIPT, "74", "the script"),
    (
        "read_script",
        "false || write /x a ; true",
        "74",
        "the script",
    ),
    ("read_script", "true && nosuch", "74", "71 nosuch"),
    ("Script::copy", SCRIPT, "", "the script"),
    ("Command::copy", SCRIPT, "74", "the command"),
    ("why_failed", "true", "", "nothing"),
    ("why_failed", "false", "", "Always"),
    ("why_failed", "cp /none /b", "75", "NoFile none"),
    ("why_failed", "cp /t/in/f /t", "75", "nothing"),
    ("why_failed", "write /a/b x", "75", "NoDir a"),
    ("why_failed", "mkdir -p /t/in/f/x", "75", "IsFile f"),
    ("why_failed", "mkdir -p /x/y", "75", "nothing"),
    ("why_failed", "concat /t/in/f /t/in/f /t", "75", "IsDir t"),
    ("why_failed", "rm /t/in", "75", "IsDest in"),
    (
        "run_command",
        "cp /t/in/f /t/x on EMPTY",
        "75",
        "0|d 0755 0 0 /\n|d 0755 0 0 /\nf 0644 0 0 6869 /x\n|d 0755 0 0 /\nd 0755 0 0 /sub\nf 0644 0 0 6869 /sub/f\n",
    ),
    (
        "run_command",
        "cp /t/in/f /t/x on copy of EMPTY",
        "75",
        "0|d 0755 0 0 /\n|d 0755 0 0 /\nf 0644 0 0 6869 /x\n|d 0755 0 0 /\nd 0755 0 0 /sub\nf 0644 0 0 6869 /sub/f\n",
    ),
    (
        "run_command",
        "cp /t/in/f /y on EMPTY",
        "75",
        "0|d 0755 0 0 /\nf 0644 0 0 6869 /y\n|d 0755 0 0 /\n|d 0755 0 0 /\nd 0755 0 0 /sub\nf 0644 0 0 6869 /sub/f\n",
    ),
    (
        "run_command",
        "write /t/in/g k on EMPTY",
        "75",
        "0|d 0755 0 0 /\n|d 0755 0 0 /\n|d 0755 0 0 /\nd 0755 0 0 /sub\nf 0644 0 0 6869 /sub/f\nf 0644 0 0 6b0a /sub/g\n",
    ),
    (
        "run_command",
        "write /t/in/g k on copy of EMPTY",
        "75",
        "0|d 0755 0 0 /\n|d 0755 0 0 /\n|d 0755 0 0 /\nd 0755 0 0 /sub\nf 0644 0 0 6869 /sub/f\nf 0644 0 0 6b0a /sub/g\n",
    ),
    (
        "run_command",
        "write /c/a x on EMPTY",
        "75",
        "1|d 0755 0 0 /\n|d 0755 0 0 /\n|d 0755 0 0 /\nd 0755 0 0 /sub\nf 0644 0 0 6869 /sub/f\n",
    ),
    (
        "run_command",
        "sha256 /f /h on ABC",
        "75",
        "0|d 0755 0 0 /\nf 0644 0 0 616263 /f\nf 0644 0 0 \
            6261373831366266386630316366656134313431343064653564616532323233623030333631613339363137376139636234\
            31306666363166323030313561640a /h\n|d 0755 0 0 /\n|d 0755 0 0 /\nd 0755 0 0 /sub\nf 0644 0 0 6869 /sub/f\n",
    ),
    (
        "run_command",
        "mkdir -p /a on A",
        "75",
        "0|d 0755 0 0 /\nd 0755 0 0 /a\n|d 0755 0 0 /\n|d 0755 0 0 /\nd 0755 0 0 /sub\nf 0644 0 0 6869 /sub/f\n",
    ),
    (
        "run_command",
        "mkdir -p /x/y on EMPTY",
        "75",
        "0|d 0755 0 0 /\nd 0755 0 0 /x\nd 0755 0 0 /x/y\n|d 0755 0 0 /\n|d 0755 0 0 /\nd 0755 0 0 /sub\nf 0644 0 0 6869 /sub/f\n",
    ),
    (
        "run_command",
        "mkdir -p /x/y on copy of EMPTY",
        "75",
        "0|d 0755 0 0 /\nd 0755 0 0 /x\nd 0755 0 0 /x/y\n|d 0755 0 0 /\n|d 0755 0 0 /\nd 0755 0 0 /sub\nf 0644 0 0 6869 /sub/f\n",
    ),
    (
        "run_command",
        "mkdir /a on A",
        "75",
        "1|d 0755 0 0 /\nd 0755 0 0 /a\n|d 0755 0 0 /\n|d 0755 0 0 /\nd 0755 0 0 /sub\nf 0644 0 0 6869 /sub/f\n",
    ),
    (
        "run_command",
        "rm /f on copy of ABC",
        "75",
        "0|d 0755 0 0 /\n|d 0755 0 0 /\n|d 0755 0 0 /\nd 0755 0 0 /sub\nf 0644 0 0 6869 /sub/f\n",
    ),
    (
        "run_command",
        "append /f k on copy of ABC",
        "75",
        "0|d 0755 0 0 /\nf 0644 0 0 6162636b0a /f\n|d 0755 0 0 /\n|d 0755 0 0 /\nd 0755 0 0 /sub\nf 0644 0 0 6869 /sub/f\n",
    ),
    (
        "run_command",
        "append /f k on ABC",
        "75",
        "0|d 0755 0 0 /\nf 0644 0 0 6162636b0a /f\n|d 0755 0 0 /\n|d 0755 0 0 /\nd 0755 0 0 /sub\nf 0644 0 0 6869 /sub/f\n",
    ),
    (
        "run_command",
        "concat /g /f /f on ABC",
        "75",
        "0|d 0755 0 0 /\nf 0644 0 0 616263 /f\nf 0644 0 0 616263616263 /g\n|d 0755 0 0 /\n|d 0755 0 0 /\nd 0755 0 0 /sub\nf 0644 0 0 6869 /sub/f\n",
    ),
    (
        "run_command",
        "chmod 0600 /f on copy of ABC",
        "75",
        "0|d 0755 0 0 /\nf 0600 0 0 616263 /f\n|d 0755 0 0 /\n|d 0755 0 0 /\nd 0755 0 0 /sub\nf 0644 0 0 6869 /sub/f\n",
    ),
    (
        "run_command",
        "test -f /f on ABC",
        "75",
        "0|d 0755 0 0 /\nf 0644 0 0 616263 /f\n|d 0755 0 0 /\n|d 0755 0 0 /\nd 0755 0 0 /sub\nf 0644 0 0 6869 /sub/f\n",
    ),
    (
        "run_command",
        "listing /t/in /l on EMPTY",
        "75",
        "0|d 0755 0 0 /\nf 0644 0 0 660a /l\n|d 0755 0 0 /\n|d 0755 0 0 /\nd 0755 0 0 /sub\nf 0644 0 0 6869 /sub/f\n",
    ),
    (
        "run_command",
        "envfile /e on EMPTY",
        "75",
        "0|d 0755 0 0 /\nf 0644 0 0 413d310a /e\n|d 0755 0 0 /\n|d 0755 0 0 /\nd 0755 0 0 /sub\nf 0644 0 0 6869 /sub/f\n",
    ),
    (
        "run_command",
        "true on EMPTY",
        "",
        "0|d 0755 0 0 /\n|d 0755 0 0 /\n|d 0755 0 0 /\nd 0755 0 0 /sub\nf 0644 0 0 6869 /sub/f\n",
    ),
    (
        "run_command",
        "false on EMPTY",
        "",
        "1|d 0755 0 0 /\n|d 0755 0 0 /\n|d 0755 0 0 /\nd 0755 0 0 /sub\nf 0644 0 0 6869 /sub/f\n",
    ),
];

#[test]
fn views_and_scripts(rt: HostRuntime) {
    are_refused::<OnView>(&rt, rt.alloc(), ROWS);
}
