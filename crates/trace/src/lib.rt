// The trace run: the records of a lent trace, one after the other, on fresh tables, and their answers into a lent output.
#![tactic(auto)]

ghost use Rattle.runs.specs.Run.{Ran};

pub mod reader;

// Runs a trace and answers how many bytes of the output it wrote; those past them stay as they came.
pub fn run(trace: &[u8], out: &mut [u8]) -> usize
    ensures { Ran trace.now out.old result out.new }
{
    if out.len() < 6 {
        return 0;
    }
    if 65536 < trace.len() {
        return walking::end(out, 0, 16, 0);
    }
    walking::walk(trace, out)
}
