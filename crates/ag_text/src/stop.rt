//! The faults of the parser of grammars.

ghost use Rattle.std.specs.Prelude.{◌≡◌};
ghost use Rattle.ag_text.specs.ParserContract.{stop_of};
ghost use Rattle.ag_text.specs.declared.stop.Stop.TheVariants as stop;

use ag_expr::ExprFault;
use ag_value::OutOfMemory;

/// Why the parser of grammars fails. Offsets are in bytes from the beginning of the text.
#[derive(Clone, Copy, PartialEq, Eq)]
pub enum Stop {
    /// At this offset is a token that cannot be accepted, a token whose number or place is above
    /// its limit, a character that begins no token, or the end of the text.
    /// `TextFault::Unexpected` is the same fault with its line.
    WrongAt(usize),
    /// The expression of a rule has this fault.
    InExpr(ExprFault),
    /// An allocation failed.
    NoMemory,
}

/// Returns the fault of the parser of grammars for a fault of an expression: `InExpr`, or
/// `NoMemory` for `NoMemory`.
pub fn in_expr(fault: ExprFault) -> Stop
    ensures { result ≡ stop_of fault }
{
    match fault {
        ExprFault::NoMemory => Stop::NoMemory,
        _ => Stop::InExpr(fault),
    }
}

impl<M: OutOfMemory> From<M> for Stop {
    ghost from_gives = { λ _ e. e ≡ stop.NoMemory };

    fn from(_error: M) -> Stop {
        Stop::NoMemory
    }
}
