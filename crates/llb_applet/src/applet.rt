//! The applets (the thirteen small commands that a script can call), and their names.

ghost use Rattle.std.specs.Prelude.{◌≡◌, option_map};
ghost use Rattle.std.specs.List.{find};
ghost use Rattle.llb_applet.specs.Applets.{name_of, applet_of, spells};

/// One of the thirteen applets, the small commands that a script can call. `name` returns the word by which a call asks for the applet.
#[derive(Clone, Copy)]
pub enum Applet {
    True,
    False,
    Mkdir,
    Rm,
    Write,
    Append,
    Cp,
    Concat,
    Chmod,
    Test,
    Listing,
    Envfile,
    Sha256,
}

const APPLETS: [Applet; 13] = [
    Applet::True,
    Applet::False,
    Applet::Mkdir,
    Applet::Rm,
    Applet::Write,
    Applet::Append,
    Applet::Cp,
    Applet::Concat,
    Applet::Chmod,
    Applet::Test,
    Applet::Listing,
    Applet::Envfile,
    Applet::Sha256,
];

impl Applet {
    /// Returns the name by which a call asks for the applet.
    fn name(self) -> &'static [u8]
        ensures { result.now ≡ name_of self }
    {
        match self {
            Applet::True => b"true",
            Applet::False => b"false",
            Applet::Mkdir => b"mkdir",
            Applet::Rm => b"rm",
            Applet::Write => b"write",
            Applet::Append => b"append",
            Applet::Cp => b"cp",
            Applet::Concat => b"concat",
            Applet::Chmod => b"chmod",
            Applet::Test => b"test",
            Applet::Listing => b"listing",
            Applet::Envfile => b"envfile",
            Applet::Sha256 => b"sha256",
        }
    }

    /// Returns the applet of this name; `None` if there is none.
    pub fn find(word: &str) -> Option<Applet>
        ensures { result ≡ applet_of word.now }
    {
        for applet in APPLETS {
            if is_word(word, applet.name()) {
                return Some(applet);
            }
        }
        None
    }
}

/// Returns whether a word is exactly these bytes.
pub fn is_word(word: &str, this: &[u8]) -> bool
    ensures { result ≡ spells this.now word.now }
{
    word.as_bytes() == this
}
