// The verdict: 01, "Bench program". Both jobs are run, and their answers decide which of RELEASE and HOLD is printed.
#![tactic(auto)]

ghost use Rattle.std.specs.Prelude.{◌≡◌, true, ◌↔◌};
ghost use Rattle.rules.specs.File.{job_of};
ghost use Rattle.rules.specs.Fences.{fenced};
ghost use Rattle.search.specs.Meaning as search_meaning;
ghost use Rattle.fences.specs.Meaning as fences_meaning;
ghost use Rattle.verdict.specs.Meaning.{ScAsks, MayRelease, VerdictPromise, line_of};
ghost use Rattle.verdict.specs.Released.{Released};

use job::Job;
use readers::faults::Fault;
use rules::Model;

// The answers of the search and of the fence check, and whether they allow the release.
#[derive(Clone, Copy)]
pub struct Verdict {
    pub search: Result<search::Answer, Fault>,
    pub fences: Result<fences::Answer, Fault>,
    pub release: bool,
}

// RELEASE or HOLD as it is printed, with the line's end.
pub fn last_line(release: bool) -> &'static [u8]
    ensures { result.now ≡ line_of release }
{
    if release { b"RELEASE\n" } else { b"HOLD\n" }
}

fn is_fenced(checked: Result<fences::Answer, Fault>) -> bool
    ensures { (result ≡ true) ↔ (fences_meaning.words checked ≡ fences_meaning.checked_words fenced) }
{
    matches!(checked, Ok(fences::Answer::Fenced))
}

// Whether the job's model lets "unreachable" stand for the hardware: SC does so only for goals with empty buffers, and fenced programs.
fn model_allows(job: &Job, checked: Result<fences::Answer, Fault>) -> bool
    ensures { (result ≡ true) ↔ ScAsks (job_of job.now.bytes.now) (fences_meaning.words checked) }
{
    match job.layout.model {
        Model::Sc => job.flag() && is_fenced(checked),
        Model::Tso | Model::Pso => true,
    }
}

// The decision, of any bytes and any two answers.
fn may_release(
    job: &[u8],
    found: Result<search::Answer, Fault>,
    checked: Result<fences::Answer, Fault>,
) -> bool
    ensures { (result ≡ true) ↔ MayRelease job.now (search_meaning.words found) (fences_meaning.words checked) }
{
    let Ok(search::Answer::Unreachable(_)) = found else {
        return false;
    };
    let Ok(accepted) = job::read(job) else {
        return false;
    };
    model_allows(&accepted, checked)
}

// The verdict on any bytes with any lent memory.
pub fn judge(table: &mut [u8], links: &mut [u32], schedule: &mut [u8], job: &[u8]) -> Verdict
    ensures verdict_promise { VerdictPromise job.now (record { table = table.old; links = links.old; schedule = schedule.old }) result
        (record { table = table.new; links = links.new; schedule = schedule.new }) }
    ensures released { result.release ≡ true → Released job.now }
{
    let found = search::search(table, links, schedule, job);
    let checked = fences::fences(job);
    let release = may_release(job, found, checked);
    Verdict {
        search: found,
        fences: checked,
        release,
    }
}
