// The library for C: each call of `trestlecap` under its own name, as include/trestlecap.h declares it.
#![tactic(auto)]

ghost use Rattle.std.specs.Prelude.{[]};
ghost use Rattle.calls.specs.declared.Call.{Call};
ghost use Rattle.trestlecap.specs.Called.{SwitchingOn, RunningList, Restarting, MakingCall, LookingUp, Picturing, Driving, MendingRecord};
ghost use Rattle.voltages.specs.declared.Bias.{Bias};

#[unsafe(no_mangle)]
pub extern "C" fn trestlecap_switch_on(state: &mut [u8]) -> u8
    ensures { SwitchingOn state.old result state.new }
{
    trestlecap::trestlecap_switch_on(state)
}

#[unsafe(no_mangle)]
pub extern "C" fn trestlecap_run_list(state: &mut [u8], events: &[u8], answers: &mut [u8]) -> u8
    ensures { RunningList state.old events.now answers.old result state.new answers.new }
{
    trestlecap::trestlecap_run_list(state, events, answers)
}

#[unsafe(no_mangle)]
pub extern "C" fn trestlecap_restart(state: &mut [u8]) -> u8
    ensures { Restarting state.old result state.new }
{
    trestlecap::trestlecap_restart(state)
}

#[unsafe(no_mangle)]
pub extern "C" fn trestlecap_picture(
    state: &[u8],
    digits: u8,
    rom: &[u8],
    dark: u8,
    out: &mut [u8],
) -> u8
    ensures { Picturing state.now digits rom.now dark out.old result out.new }
{
    trestlecap::trestlecap_picture(state, digits, rom, dark, out)
}

#[unsafe(no_mangle)]
pub extern "C" fn trestlecap_text(
    state: &mut [u8],
    line: u8,
    characters: &[u8],
    wrap: &mut u8,
) -> u8
    ensures { MakingCall state.old (Call.Text line) characters.now wrap.old result state.new wrap.new }
{
    trestlecap::trestlecap_text(state, line, characters, wrap)
}

#[unsafe(no_mangle)]
pub extern "C" fn trestlecap_log_night(
    state: &mut [u8],
    night: u8,
    quarters: u8,
    wrap: &mut u8,
) -> u8
    ensures { MakingCall state.old (Call.Log night quarters) [] wrap.old result state.new wrap.new }
{
    trestlecap::trestlecap_log_night(state, night, quarters, wrap)
}

#[unsafe(no_mangle)]
pub extern "C" fn trestlecap_look_up(
    state: &[u8],
    night: u8,
    written: &mut u8,
    quarters: &mut u8,
) -> u8
    ensures { LookingUp state.now night written.old quarters.old result written.new quarters.new }
{
    trestlecap::trestlecap_look_up(state, night, written, quarters)
}

#[unsafe(no_mangle)]
pub extern "C" fn trestlecap_quarter_bias(vdd: u16, span: u16, volts: &mut [f32; 3]) -> u8
    ensures { Driving vdd span Bias.Quarter volts.old result volts.new }
{
    trestlecap::trestlecap_quarter_bias(vdd, span, volts)
}

#[unsafe(no_mangle)]
pub extern "C" fn trestlecap_fifth_bias(vdd: u16, span: u16, volts: &mut [f32; 4]) -> u8
    ensures { Driving vdd span Bias.Fifth volts.old result volts.new }
{
    trestlecap::trestlecap_fifth_bias(vdd, span, volts)
}

#[unsafe(no_mangle)]
pub extern "C" fn trestlecap_mend(
    bytes: &[u8],
    mended: &mut [u8],
    kept: &mut u16,
    dropped: &mut usize,
    altered: &mut u8,
) -> u8
    ensures { MendingRecord bytes.now mended.old kept.old dropped.old altered.old result mended.new kept.new dropped.new altered.new }
{
    trestlecap::trestlecap_mend(bytes, mended, kept, dropped, altered)
}
