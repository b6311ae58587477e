// What tests/bias calls from C: the bias sheet, with numbers alone.
#![tactic(auto)]

ghost use Rattle.bias_export.specs.Called.{Called};

use sheet::sheet;
use voltages::{Bias, Drive};

// How many bytes the sheet has, or 0 for a buffer below `sheet::MOST_BYTES`.
pub fn bias_sheet(vdd: u16, span: u16, fifth: bool, out: &mut [u8]) -> usize
    ensures { Called vdd span fifth out.old result out.new }
{
    let bias = Bias::from(fifth);
    sheet(Drive { vdd, span, bias }, out).unwrap_or(0)
}
