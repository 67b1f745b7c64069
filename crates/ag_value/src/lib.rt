//! Values of attributes: their weight and depth, their spelling (the bytes that encode a value),
//! and the text that `aggen value` prints for a value.
#![tactic(auto)]

mod boxed;
mod fault;
mod items;
pub mod laws;
mod limits;
mod spelling;
mod text;
mod value;
mod walks;

pub use boxed::Boxed;
pub use fault::{NoMemory, OutOfMemory, ValueFault};
pub use items::Items;
pub use limits::{MAX_VALUE_DEPTH, MAX_WEIGHT};
pub use spelling::decoding::decode;
pub use spelling::encoding::encode;
pub use spelling::showing::show;
pub use text::Text;
pub use value::{ErrorCode, Value};
pub use walks::comparing::same;
pub use walks::copying::copy;
pub use walks::measuring::{depth, weight};
pub use walks::wellness::is_well;
