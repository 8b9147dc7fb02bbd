//! Names of files (docs/architecture.md, "Plans").

ghost use Rattle.std.specs.Prelude.{◌≡◌, true, IfOk};
ghost use Rattle.rg_plan.specs.Lines as rules;

use rg_base::Memory;
use std::alloc::Global;
use std::marker::Model;

/// The name of a file; contracts see its bytes.
#[derive(Drop)]
pub struct FileName {
    text: String,
}

impl Model for FileName {
    ghost use Rattle.std.specs.Prelude.{List, ℕ};
    ghost use Rattle.std.specs.String.{string_bytes};

    ghost Value = { List ℕ };

    ghost view = { λ n. string_bytes n.text };
}

impl FileName {
    /// A name of these bytes, which a plan may name.
    pub(crate) fn of(alloc: Global, bytes: &[u8]) -> Result<FileName, Memory>
        requires { rules.is_file_name bytes.now ≡ true }
        ensures { IfOk result (λ n. n ≡ bytes.now) }
    {
        let Ok(text) = str::from_utf8(bytes) else {
            unreachable!();
        };
        match String::from_str(alloc, text) {
            Ok(text) => Ok(FileName { text }),
            Err(_) => Err(Memory),
        }
    }

    /// The name.
    pub fn text(&self) -> &str
        ensures { result.now ≡ self.now }
    {
        self.text.as_str()
    }
}
