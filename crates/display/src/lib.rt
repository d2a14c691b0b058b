// A record as text on a page: its name, and its operands joined by commas.
#![tactic(auto)]

ghost use Rattle.std.specs.Prelude.{◌<◌, ◌^◌};
ghost use Rattle.display.specs.Operands.{insn_text};
ghost use Rattle.text.specs.Writes.{Writes};

use insn::Insn;
use name_text::Names;
use text::Page;

mod operands;

// A record: its name and its operands.
pub fn put_insn(page: &mut Page<u8>, i: Insn, names: &Names)
    requires { page.old.at < 2 ^ 55 }
    ensures { Writes 78 page.old (insn_text i) page.new }
{
    names.put_name(page, i.mnemonic);
    operands::put_operands(page, i);
}
