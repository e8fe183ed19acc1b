// How the text of a line ends.
ghost use Rattle.std.specs.Prelude.{◌≡◌, ◌≤◌, ◌+◌, ◌++◌, ℕ, List, length, codes};
ghost use Rattle.std.specs.Fmt.{decimal};
ghost use Rattle.host_transport.specs.Trying.{said_of};
ghost use Rattle.ectool_lines.specs.Texts.{printed, refusal_text, status_text, closing_text};

use crate::Tool;
use bench_io::LineText;
use ec_types::{Status, status};
use host_transport::Said;
use itoa::Buffer;

// A status by its number and its name.
fn append_status(out: &mut LineText, status: u16)
    requires { length out.old ≡ 0 }
    ensures text { out.new ≡ out.old ++ status_text status }
    ensures short { length out.new ≤ 64 }
{
    let mut digits = Buffer::new();
    out.append(b"EC result ");
    out.append(digits.format(status).as_bytes());
    out.append(b" (");
    out.append(Status(status).name().as_bytes());
    out.append(b")");
}

/// Tells, in place of what was there, that a command was no success.
pub(crate) fn refuse(out: &mut LineText, said: Said)
    ensures { (body : List ℕ) → out.new ≡ printed (refusal_text (said_of said body)) }
{
    out.clear();
    match said {
        Said::Ok => append_status(out, status::SUCCESS),
        Said::Status(status) => append_status(out, status),
        Said::NoPower => out.append(b"EC has no power"),
        Said::Upset | Said::Short => out.append(b"EC did not answer"),
    }
    out.append(b"\n");
}

// What was done to how many bytes.
fn append_done(out: &mut LineText, done: &[u8], count: usize)
    requires few { length done.now ≤ 16 }
    requires fits { length out.old ≤ 12000 }
    ensures text { out.new ≡ out.old ++ (done.now ++ decimal count ++ codes " bytes") }
    ensures short { length out.new ≤ length out.old + 64 }
{
    let mut digits = Buffer::new();
    out.append(done);
    out.append(digits.format(count).as_bytes());
    out.append(b" bytes");
}

// How the text of a line ends that was a success, but for its line feed.
fn append_closing(out: &mut LineText, tool: &Tool<'_>)
    requires { length out.old ≤ 12000 }
    ensures text { out.new ≡ out.old ++ closing_text tool.now }
    ensures short { length out.new ≤ length out.old + 64 }
{
    match tool {
        Tool::Hello => out.append(b"EC says hello!"),
        Tool::FlashWrite { at: _, bytes } => append_done(out, b"wrote ", bytes.len()),
        Tool::FlashErase { at: _, size } => append_done(out, b"erased ", *size as usize),
        Tool::HashAbort | Tool::Reboot { .. } | Tool::Resend => out.append(b"ok"),
        _ => {}
    }
}

/// Ends the text of a line that was a success.
pub(crate) fn close(out: &mut LineText, tool: &Tool<'_>)
    requires { length out.old ≤ 12000 }
    ensures { out.new ≡ printed (out.old ++ closing_text tool.now) }
{
    append_closing(out, tool);
    out.append(b"\n");
}
