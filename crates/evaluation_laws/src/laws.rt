ghost use Rattle.evaluation_laws.specs.Agreement.{AgreeOn, AnswerAlike};

use bucket_store::Database;
use cynara_keys::Question;

/// Databases that agree on a question answer it alike, from each bucket, whether buckets are followed or not.
pub fn agreement_answers_alike(_one: &Database, _other: &Database, _question: &Question)
    ensures { AgreeOn _question.now _one.now _other.now → AnswerAlike _question.now _one.now _other.now }
{}
