// The bias sheet for C, as tests/bias calls it.
#![tactic(auto)]

ghost use Rattle.bias_export.specs.Called.{Called};

// How many bytes the sheet has, or 0 for a buffer that is too short.
#[unsafe(no_mangle)]
pub extern "C" fn bias_sheet(vdd: u16, span: u16, fifth: bool, out: &mut [u8]) -> usize
    ensures { Called vdd span fifth out.old result out.new }
{
    bias_export::bias_sheet(vdd, span, fifth, out)
}
