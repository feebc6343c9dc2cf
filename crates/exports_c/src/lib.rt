// The entry that the benchmark calls from C: `exports`, as an archive.
#![tactic(auto)]

ghost use Rattle.exports.specs.Exports.{JudgeExported};

// The verdicts of a job, with its marks and path in the fronts of the rooms: 0 if it is refused, else 1, and 2 more if Poss is yes, 4 more if Def is.
#[unsafe(no_mangle)]
pub extern "C" fn filebramble_judge(job: &[u8], marks: &mut [u8], path: &mut [u8]) -> u8
    ensures { JudgeExported job.now marks.old path.old result marks.new path.new }
{
    exports::filebramble_judge(job, marks, path)
}
