//! What words ask for, once they have their places.
ghost use Rattle.std.specs.Prelude.{◌≡◌, ℕ, ◌<◌, ◌≤◌, ◌^◌, option_map, IfOk};
ghost use Rattle.words_line.specs.Forms.{places_of, number_step, ticks_step, view_step, run_step, plan_step, gen_step, steps};
ghost use Rattle.words_line.specs.Words.{Answers, view_of};

use crate::command::Command;
use crate::form::Form;
use crate::name::Name2;
use crate::word_fault::WordFault;
use crate::words_err::WordsErr;
use std::alloc::Global;
use tb_base::limits::{GUESTS, HOST_TICKS};
use tb_text::read_dec;
use trace_rec::View;

/// The fewest guests of a generated load: its links make a ring of at least two.
const LEAST_GUESTS: u64 = 2;

/// The number from `least` to `most` that a word is the decimal of.
fn number(word: &str, least: u64, most: u64) -> Result<u64, WordFault>
    ensures exact { result ≡ number_step least most word.now }
    ensures range { IfOk result (λ n. n ≤ most) }
{
    match read_dec(word.as_bytes()) {
        Some(n) if n >= least && n <= most => Ok(n),
        _ => Err(WordFault::BadNumber),
    }
}

/// The number of host ticks.
fn host_ticks(word: Option<&str>) -> Result<u64, WordFault>
    ensures { result ≡ ticks_step (option_map (λ s. s.now) word.entry) }
{
    match word {
        None => Err(WordFault::MissingOption),
        Some(word) => number(word, 0, HOST_TICKS),
    }
}

/// The view of a name.
#[tactic(auto, unfolding(crate::specs::Words::view_of))]
fn view_of(name: &str) -> Option<View>
    ensures { result ≡ view_of name.now }
{
    match name {
        "journal" => Some(View::Journal),
        "events" => Some(View::Events),
        "traces" => Some(View::Traces),
        "summary" => Some(View::Summary),
        _ => None,
    }
}

/// The view to show. It is the summary where no view is asked for.
fn view(name: Option<&str>) -> Result<View, WordFault>
    ensures { result ≡ view_step (option_map (λ s. s.now) name.entry) }
{
    match name {
        None => Ok(View::Summary),
        Some(name) => match view_of(name) {
            Some(view) => Ok(view),
            None => Err(WordFault::BadView),
        },
    }
}

#[tactic(auto, unfolding(crate::specs::Forms::run_step))]
fn run_of(alloc: Global, form: Form<'_>) -> Result<Command, WordsErr>
    ensures { Answers (run_step (places_of form.entry)) result }
{
    if form.about.is_empty() {
        return Err(WordsErr::Fault(WordFault::EmptyName));
    }
    let host_ticks = host_ticks(form.host_ticks)?;
    let view = view(form.view)?;
    let file = Name2::from_text(alloc, form.about)?;
    Ok(Command::Run {
        file,
        host_ticks,
        view,
    })
}

#[tactic(auto, unfolding(crate::specs::Forms::plan_step))]
fn plan_of(alloc: Global, form: Form<'_>) -> Result<Command, WordsErr>
    ensures { Answers (plan_step (places_of form.entry)) result }
{
    if form.about.is_empty() {
        return Err(WordsErr::Fault(WordFault::EmptyName));
    }
    if form.host_ticks.is_some() || form.view.is_some() {
        return Err(WordsErr::Fault(WordFault::ExtraOption));
    }
    let file = Name2::from_text(alloc, form.about)?;
    Ok(Command::Plan { file })
}

#[tactic(auto, unfolding(crate::specs::Forms::gen_step))]
fn gen_of(form: Form<'_>) -> Result<Command, WordFault>
    ensures { result ≡ gen_step (places_of form.entry) }
{
    let n = number(form.about, LEAST_GUESTS, GUESTS as u64)?;
    if form.view.is_some() {
        return Err(WordFault::ExtraOption);
    }
    let host_ticks = host_ticks(form.host_ticks)?;
    Ok(Command::Gen {
        n: n as u32,
        host_ticks,
    })
}

/// What the words of this form ask for, or the first fault.
#[tactic(auto, unfolding(crate::specs::Forms::steps))]
pub(crate) fn asked(alloc: Global, form: Form<'_>) -> Result<Command, WordsErr>
    ensures { Answers (steps (places_of form.entry)) result }
{
    match form.command {
        "run" => run_of(alloc, form),
        "plan" => plan_of(alloc, form),
        "gen" => Ok(gen_of(form)?),
        _ => Err(WordsErr::Fault(WordFault::UnknownCommand)),
    }
}
