// The first line of a job file: J g n l.
ghost use Rattle.std.specs.Prelude.{◌≤◌};
ghost use Rattle.std.specs.Result.{OkIff};
ghost use Rattle.jobs.specs.Jobs.{Job, language_of, job_lines, JobFits, job_of};
ghost use Rattle.jobs.specs.JobCodec.{job_codec};

use lines::family::Spelled;
use lines::reader::{LineFault, Numbers};
use lines::scope::Scope;
use lines::{MOST_LOCATIONS, MOST_THREADS};

#[derive(Clone, Copy, PartialEq, Eq, Debug)]
pub enum LanguageChoice {
    Registers,
    Strips,
}

// An impl of its own, as for each mode of a line.
impl TryFrom<u32> for LanguageChoice {
    type Error = LineFault;

    ghost try_from_gives = { λ number language. OkIff language (number ≤ 1) (language_of number) };

    fn try_from(number: u32) -> Result<LanguageChoice, LineFault> {
        match number {
            0 => Ok(LanguageChoice::Registers),
            1 => Ok(LanguageChoice::Strips),
            _ => Err(LineFault::Range),
        }
    }
}

#[derive(Clone, Copy)]
pub struct JobLine {
    pub language: LanguageChoice,
    pub scope: Scope,
}

impl Spelled for JobLine {
    type Kind = ();

    type Scope = ();

    ghost Shown = { Job };

    ghost shown = { job_of };

    ghost family = { λ _. job_lines };

    ghost Fits = { λ _. JobFits };

    ghost codec = { λ _. job_codec };

    fn kind_of(letter: char) -> Option<()> {
        match letter {
            'J' => Some(()),
            _ => None,
        }
    }

    fn limits(_kind: (), _scope: ()) -> Numbers {
        Numbers::from_slice(&[1, u32::from(MOST_THREADS), u32::from(MOST_LOCATIONS)], 0)
    }

    fn make(_kind: (), numbers: &[u32]) -> Option<JobLine> {
        let [language, threads, locations] = numbers else {
            return None;
        };
        Some(JobLine {
            language: LanguageChoice::try_from(*language).ok()?,
            scope: Scope::new(u8::try_from(*threads).ok()?, u8::try_from(*locations).ok()?)?,
        })
    }
}
