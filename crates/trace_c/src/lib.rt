// The trace run for a caller through C, as bindings/c/sends_run.h declares it.
#![tactic(auto)]

ghost use Rattle.runs.specs.Run.{Ran};

// Runs a trace and answers how many bytes of the output it wrote; those past them stay as they came.
#[unsafe(no_mangle)]
pub extern "C" fn sends_run(trace: &[u8], out: &mut [u8]) -> usize
    ensures { Ran trace.now out.old result out.new }
{
    trace::run(trace, out)
}
