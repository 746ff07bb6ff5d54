// Where the parts of a message stand.
ghost use Rattle.std.specs.Prelude.{◌≡◌, ◌≤◌};
ghost use Rattle.messages.specs.Layout.{write_start};

use limits::{HEADER, NODE_WIDTH};
use settings::kind::Setting;
use summaries::kind::Summary;

/// The version byte.
pub(crate) const VERSION: u8 = 1;

/// Where write i begins, counted from 0; at the number of writes, the length of the message.
pub(crate) fn write_start<T: Setting, S: Summary>(i: usize) -> usize
    requires { i ≤ 255 }
    ensures { result ≡ write_start S.Summary.kind.wide T.Setting.kind.wide i }
{
    HEADER + S::WIDTH + i * (NODE_WIDTH + T::WIDTH)
}
