ghost use Rattle.std.specs.Prelude.{◌≡◌, Option, IfOk};
ghost use Rattle.hc_core.specs.Program.{Statement};
ghost use Rattle.hc_core.specs.Read.{statement};

use hc_core::Stmt;
use std::alloc::AllocError;

/// What is looked for in statements.
pub trait Finds {
    type Found: Copy;

    ghost finds: { Statement → Option Self.Found };

    /// What is found in a statement itself; what stands within it is another statement's. The error is want of memory.
    fn find(&self, s: &Stmt) -> Result<Option<Self::Found>, AllocError>
        ensures { IfOk result (λ found. found ≡ finds (statement s.now)) };
}
