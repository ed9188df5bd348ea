//! The rows on windows: items inside bodies that become calls.

mod bodies;
mod doubles;
mod earlier;
mod endings;
mod found;
mod inside;
mod joins;
mod kinds;
mod left;
mod occurrences;
mod pass;
mod proposals;
mod search;
mod stands;
mod sweep;
mod taken;
mod window;

pub use earlier::Asking;
pub(crate) use endings::Endings;
pub use left::FoundWindows;
pub use pass::Windows;
pub use proposals::propose_windows;
pub(crate) use stands::begins;
pub use sweep::sweep_windows;
