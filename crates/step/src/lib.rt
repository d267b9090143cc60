// One letter of a run. What the Rust's `inner_process` became, but for its loop, which is in crate `strand`:
//
// | the Rust | here |
// |---|---|
// | its locals, the window's ends | state: `State`, the rolling k-mer, the next letter, and window: `Window` and hand: `Open` |
// | a turn of its loop up to the new entry | state: `State::enter`, with window: `Window::make_room` and `Window::join` |
// | the tests before a search | state: `State::is_searched`, `State::look` |
// | what follows a search | state: `State::passed`, `State::extended`, `State::answered` |
//
// The queue and both kinds of counts go side by side through these functions, and those of `strand`: each says by its types which of the three it may write.

#![tactic(auto)]

mod hand;
mod state;
mod window;

pub use hand::Open;
pub use state::{Look, State};
pub use window::Window;
