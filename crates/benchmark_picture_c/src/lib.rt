// The picture that a record leaves, for C, as the benchmark calls it.
#![tactic(auto)]

ghost use Rattle.benchmark_picture.specs.Drawn.{Drawn};

#[unsafe(no_mangle)]
pub extern "C" fn benchmark_picture(
    bytes: &[u8],
    digits: u8,
    rom: &[u8],
    dark: bool,
    again: u32,
    out: &mut [u8],
) -> u8
    ensures { Drawn bytes.now digits rom.now dark out.old result out.new }
{
    benchmark_picture::benchmark_picture(bytes, digits, rom, dark, again, out)
}
