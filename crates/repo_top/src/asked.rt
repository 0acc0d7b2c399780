ghost use Rattle.std.specs.Prelude.{◌≡◌, ◌≢◌, ◌<◌, map, string_bytes, Some, IfSome};
ghost use Rattle.repo_top.specs.declared.asked.Asked.TheVariants.{Gen};
ghost use Rattle.repo_top.specs.declared.generator.GeneratorInputs.{GeneratorInputs};
ghost use Rattle.repo_top.specs.Forms.{asked_of, gen_of, measures_of, reading_of};
ghost use Rattle.repo_top.specs.Words.{number_within};

use crate::generator::GeneratorInputs;
use crate::words::number_within;

// What the words of the command line ask for.
#[derive(Clone, Copy, Debug, PartialEq, Eq)]
pub(crate) enum Asked {
    // The report of the script of the source.
    Run,
    // The lines of the elements whose digits the source gives.
    Inspect,
    // A script with these numbers of members and objects, and this seed.
    Gen(GeneratorInputs),
}

// What the words ask for.
pub(crate) fn asked_of(words: &[String]) -> Option<Asked>
    ensures value { result ≡ asked_of (map string_bytes words.now) }
    ensures some { (measures : GeneratorInputs) → result ≡ Some (Gen measures) → 0 < measures.members }
{
    match reading_of(words) {
        Some(asked) => Some(asked),
        None => gen_of(words).map(Asked::Gen),
    }
}

fn reading_of(words: &[String]) -> Option<Asked>
    ensures value { result ≡ reading_of (map string_bytes words.now) }
    ensures some { (measures : GeneratorInputs) → result ≢ Some (Gen measures) }
{
    match words {
        [word] if word.as_str() == "run" => Some(Asked::Run),
        [word] if word.as_str() == "inspect" => Some(Asked::Inspect),
        _ => None,
    }
}

fn gen_of(words: &[String]) -> Option<GeneratorInputs>
    ensures value { result ≡ gen_of (map string_bytes words.now) }
    ensures some { IfSome result (λ measures. 0 < measures.members) }
{
    match words {
        [word, members, objects, seed] if word.as_str() == "gen" => {
            measures_of(members, objects, seed)
        }
        _ => None,
    }
}

fn measures_of(members: &str, objects: &str, seed: &str) -> Option<GeneratorInputs>
    ensures value { result ≡ measures_of (number_within 1 16 members.now) (number_within 1 2000 objects.now)
        (number_within 0 999999999999999999 seed.now) }
    ensures some { IfSome result (λ measures. 0 < measures.members) }
{
    Some(GeneratorInputs {
        members: number_within(1, 16, members.as_bytes())?,
        objects: number_within(1, 2_000, objects.as_bytes())?,
        seed: number_within(0, 999_999_999_999_999_999, seed.as_bytes())?,
    })
}
