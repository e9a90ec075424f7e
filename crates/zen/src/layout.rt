// Where the parts of an accepted package are, read from its fields without asking anything again.
ghost use Rattle.std.specs.Prelude.{◌≡◌, ◌≤◌, length, Ok};
ghost use Rattle.base.specs.Reading.{run_block};
ghost use Rattle.zen.specs.Zen.{package_block};
ghost use Rattle.zen.specs.Answers.{answer};
ghost use Rattle.zen.specs.Layouts.{names_at, layout_at, BatchAt, LayoutAt};
ghost use Rattle.zen.specs.declared.zen.Layout.{Layout};

use super::summary::summary_in;
use super::zen::Layout;
use base::number::le32_usize;
use batch::names::Names;

// The parts of a batch.
fn batch_in(s: &[u8], at: usize) -> Names
    requires { BatchAt s.now at }
    ensures { result ≡ names_at s.now at }
{
    let count = le32_usize(s, at);
    if count == 0 {
        let next = at + 4;
        return Names {
            count: 0,
            headers: next,
            strings: next,
            end: next,
        };
    }
    let headers = at + 16 + 8 * count;
    let strings = headers + 2 * count;
    Names {
        count,
        headers,
        strings,
        end: strings + le32_usize(s, at + 4),
    }
}

// The parts of a header.
fn layout_in(s: &[u8]) -> Layout
    requires { LayoutAt s.now }
    ensures { result ≡ layout_at s.now }
{
    let m = summary_in(s);
    let imported = batch_in(s, m.imported);
    Layout {
        size: s.len(),
        summary: m,
        names: batch_in(s, 52),
        imported,
    }
}

// The parts of an accepted package.
pub fn layout_of(b: &[u8]) -> Layout
    requires { (l : Layout) × (answer (run_block package_block b.now) ≡ Ok l) }
    ensures { answer (run_block package_block b.now) ≡ Ok result }
{
    let size = le32_usize(b, 4);
    layout_in(&b[..size])
}
