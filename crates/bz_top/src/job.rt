//! What the words of the program ask for.
ghost use Rattle.std.specs.Prelude.{◌≡◌};
ghost use Rattle.std.specs.String.{string_bytes};

use std::marker::Model;

/// The name of a file, as the words give it. Contracts see its bytes.
#[derive(Drop)]
pub struct FileName {
    text: String,
}

impl Model for FileName {
    ghost use Rattle.std.specs.Prelude.{List, ℕ};
    ghost use Rattle.std.specs.String.{string_bytes};

    ghost Value = { List ℕ };

    ghost view = { λ n. string_bytes n.text };
}

impl FileName {
    /// The name of these bytes. It takes no memory.
    pub fn from_string(text: String) -> Self
        ensures { result ≡ string_bytes text }
    {
        FileName { text }
    }

    /// The name's text. It takes no memory.
    pub fn as_str(&self) -> &str
        ensures { result.now ≡ self.now }
    {
        self.text.as_str()
    }
}

/// What the words ask for.
#[derive(Drop)]
pub enum Job {
    /// Check a certificate against a model and its partition, by the names of their files.
    Check {
        model: FileName,
        part: FileName,
        cert: FileName,
    },
    /// Print the parts of a model by its partition, by the names of their files.
    Split {
        model: FileName,
        part: FileName,
    },
}
