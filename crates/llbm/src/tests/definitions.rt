//! Entries and local trees that calls name. Each is below a line with `== `, its name and a description. In an entry, which is the assembler's text, `%0` is
//! the digest of the first entry of the definition.

pub(crate) const ENTRIES: &str = r#"
== MAKES_A: A file `/a` with the content `hi` on nothing.
op {
  file {
    actions {
      input -1
      secondaryInput -1
      mkfile {
        path "/a"
        mode 420
        data 6869
        timestamp -1
      }
    }
  }
}
== MAKES_XA: A file `/x/a`, whose directory is missing.
op {
  file {
    actions {
      input -1
      secondaryInput -1
      mkfile {
        path "/x/a"
        mode 420
        data 6869
        timestamp -1
      }
    }
  }
}
== SOURCE_P: The local source `p`.
op {
  source {
    identifier "local://p"
  }
}
== RESULT_0: The terminal: the result is the first output of the first entry.
op {
  inputs {
    digest %0
  }
}
== FIELD_ZERO: Bytes whose first field has the number 0.
raw 00
"#;

pub(crate) const FILES: &str = "
== Q: A file `/f`.
d 0755 0 0 /
f 0644 0 0 6869 /f
== LATE: A text that is no tree: the root twice.
d 0755 0 0 /
d 0755 0 0 /
";
