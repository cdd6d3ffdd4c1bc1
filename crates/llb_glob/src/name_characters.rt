//! A name's characters as a slice.

ghost use Rattle.std.specs.Prelude.{◌≡◌, ◌≤◌, length};
ghost use Rattle.std.specs.Str.{chars};

use std::marker::Model;

/// The characters of a text of at most 255 bytes, kept without allocating.
#[derive(Drop)]
pub struct Letters {
    room: [char; 255],
    count: usize,
}

impl Model for Letters {
    ghost use Rattle.std.specs.Prelude.{ℕ, ◌≤◌, List, take};

    ghost Value = { List ℕ };

    ghost view = { λ l. take l.count l.room };

    ghost invariant = { λ l. l.count ≤ 255 };
}

impl Letters {
    /// Returns the characters of a text of at most 255 bytes.
    pub fn of(text: &str) -> Letters
        requires { length text.now ≤ 255 }
        ensures { result ≡ chars text.now }
    {
        let mut room = ['\0'; 255];
        let mut count = 0;
        for letter in text.chars() {
            room[count] = letter;
            count += 1;
        }
        Letters { room, count }
    }

    /// Returns the characters, of which there are at most 255.
    pub fn as_slice(&self) -> &[char]
        ensures all { result.now ≡ self.now }
        ensures short { length self.now ≤ 255 }
    {
        &self.room[..self.count]
    }
}
