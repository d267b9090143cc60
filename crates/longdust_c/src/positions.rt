// The call for questions about a position.

ghost use Rattle.std.specs.Prelude.{◌≡◌, ◌<◌, length};
ghost use Rattle.buffers.specs.Fill.{put};
ghost use Rattle.questions.specs.Batch.{summary_of, results_of, refusal};
ghost use Rattle.longdust_c.specs.Numbers.{count_or};

use crate::numbers::returned;
use intervals::Interval;
use questions::{Answer, Question};

/// `questions::answer_questions` on slices. Returns the number of questions, or minus refusal 10, 16, 11 or 17.
#[unsafe(no_mangle)]
pub extern "C" fn longdust_questions(
    n: usize,
    list: &[Interval],
    questions: &[Question],
    summary: &mut [u32],
    results: &mut [Answer],
) -> i64
    ensures number { result
        ≡ count_or (refusal n list.now questions.now (length summary.old) (length results.old))
        (length questions.now) }
    ensures summary { refusal n list.now questions.now (length summary.old) (length results.old) ≡ 0
        → summary.new ≡ put (summary_of n list.now) summary.old }
    ensures results { refusal n list.now questions.now (length summary.old) (length results.old) ≡ 0
        → results.new ≡ put (results_of list.now questions.now) results.old }
    ensures same_summary { 0 < refusal n list.now questions.now
        (length summary.old) (length results.old)
        → summary.new ≡ summary.old }
    ensures same_results { 0 < refusal n list.now questions.now
        (length summary.old) (length results.old)
        → results.new ≡ results.old }
{
    returned(questions::answer_questions(n, list, questions, summary, results))
}
