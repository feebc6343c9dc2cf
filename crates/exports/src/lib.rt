// What the benchmark asks of a job, as one number: `exports_c` hands it to C.
#![tactic(auto)]

ghost use Rattle.std.specs.Prelude.{◌≡◌};
ghost use Rattle.exports.specs.Exports.{verdict_number, JudgeExported};

// The verdicts of a job, with its marks and path in the fronts of the rooms: 0 if it is refused, else 1, and 2 more if Poss is yes, 4 more if Def is.
pub fn filebramble_judge(job: &[u8], marks: &mut [u8], path: &mut [u8]) -> u8
    ensures { JudgeExported job.now marks.old path.old result marks.new path.new }
{
    // C takes a number: no enum goes over its border.
    match engine::judge(job, marks, path) {
        Err(_) => 0,
        Ok(v) => verdict_number(v.witness.is_some(), v.def),
    }
}

// Two verdicts as a number.
fn verdict_number(poss: bool, def: bool) -> u8
    ensures { result ≡ verdict_number poss def }
{
    1 + 2 * u8::from(poss) + 4 * u8::from(def)
}
