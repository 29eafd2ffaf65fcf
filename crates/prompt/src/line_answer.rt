//! What one line is answered. A function that keeps no checkpoint is generic in the files too, since
//! `IsAnswered` names their `keeps`.
ghost use Rattle.std.specs.Prelude.{◌≡◌, IfOk, IfSome, Some, None, string_bytes, true, false};
ghost use Rattle.prompt.specs.Conversation.{IsCalm, IsAnswered, carry_asked, is_view, prompt_text};
ghost use Rattle.prompt.specs.declared.form.Form.TheVariants as form;
ghost use Rattle.prompt.specs.LogCut.{is_cut};
ghost use Rattle.prompt.specs.Moment.{IsForeign};
ghost use Rattle.prompt.specs.Save.{is_save};
ghost use Rattle.prompt.specs.Undo.{is_undo};

use crate::carried::carried_text;
use crate::carry::{CarryLine, carry_of, carry_on};
use crate::details::{carry_details, no_details, pairs_before, reply_details, view_details};
use crate::form::Form;
use crate::gone::{keep_gone, keep_gone_of, newest_of};
use crate::line_text::{LineAnswer, answer_of};
use crate::log_cut::{cut_log, cut_text, is_cut};
use crate::moment::{given_line, is_foreign, is_view};
use crate::save::{Files, is_save, saved_text};
use crate::state::PromptState;
use crate::try_line::{tried, try_text};
use crate::undo::{is_undo, keep_declared, take_back, taken_text};
use collections::ArcValue;
use keycode::Text;
use schema_version::Schema;
use script_hints::{Before, view_of};
use script_json::PairsBefore;
use script_json::script_progress::plan_dropped;
use script_json::script_session::Session;
use std::alloc::{AllocError, Global};

// The session's own reply to a line, the hint that goes with it, and what the line changed since these
// pairs; the names of elements that left this version with it are kept.
fn reply_after<F: Files>(
    alloc: Global,
    state: &mut PromptState,
    line: &str,
    form: Form,
    pairs: &PairsBefore,
    newest: &Option<ArcValue<Schema>>,
) -> Result<LineAnswer, AllocError>
    requires calm { IsCalm state.old.session line.now }
    ensures { IfOk result (λ answer. IsAnswered F.keeps form state.old line.now answer.text.items answer.is_bad state.new) }
{
    let given = given_line(alloc, &state.session, line)?;
    let before = Before::new(alloc, &state.session, given.as_str())?;
    let answer = state.session.reply_to(alloc, given.as_str())?;
    let reply = answer.text.as_str();
    let hint = before.hint(alloc, &state.session, given.as_str(), reply)?;
    let details = reply_details(
        alloc,
        &state.session,
        given.as_str(),
        answer.is_bad,
        form,
        pairs,
    )?;
    keep_declared(alloc, state, given, answer.is_bad)?;
    keep_gone_of(alloc, &mut state.gone, newest, &state.session)?;
    let answer = answer_of(alloc, form, reply, answer.is_bad, hint.as_str(), &details)?;
    Ok(answer)
}

// The session's own reply to a line, and the hint that goes with it.
fn reply_line<F: Files>(
    alloc: Global,
    state: &mut PromptState,
    line: &str,
    form: Form,
) -> Result<LineAnswer, AllocError>
    requires calm { IsCalm state.old.session line.now }
    ensures { IfOk result (λ answer. IsAnswered F.keeps form state.old line.now answer.text.items answer.is_bad state.new) }
{
    let pairs = pairs_before(&state.session, form)?;
    let newest = newest_of(&state.session)?;
    let answer = reply_after::<F>(alloc, state, line, form, &pairs, &newest)?;
    Ok(answer)
}

// A view of the session, which stays as it was; none, if the line has not the first word of one.
fn view_shown(
    alloc: Global,
    session: &Session,
    gone: &[(u32, Text)],
    line: &str,
    form: Form,
) -> Result<Option<String>, AllocError>
    ensures { IfOk result (λ shown. IfSome shown (λ _. is_view line.now ≡ true)) }
{
    if !is_view(line) {
        return Ok(None);
    }
    match tried(line) {
        Some(line) => Ok(Some(try_text(alloc, session, line)?)),
        None => view_of(alloc, session, gone, line, form.is_shown()),
    }
}

// A view of the session, which stays as it was, or else its reply.
fn view_line<F: Files>(
    alloc: Global,
    state: &mut PromptState,
    line: &str,
    form: Form,
) -> Result<LineAnswer, AllocError>
    requires foreign { IsForeign line.now }
    requires calm { carry_asked state.old.session line.now ≡ None }
    requires no_undo { is_undo line.now ≡ false }
    requires no_cut { is_cut line.now ≡ false }
    requires no_save { is_save line.now ≡ false }
    ensures { IfOk result (λ answer. IsAnswered F.keeps form state.old line.now answer.text.items answer.is_bad state.new) }
{
    let gone = state.gone.as_slice();
    if let Some(view) = view_shown(alloc, &state.session, gone, line, form)? {
        let details = view_details(alloc, &state.session, gone, line, form)?;
        let answer = answer_of(alloc, form, "", false, view.as_str(), &details)?;
        return Ok(answer);
    }
    reply_line::<F>(alloc, state, line, form)
}

// What a line asks an opened session for: to carry changes on.
fn carry_asked(
    alloc: Global,
    session: &Session,
    line: &[u8],
) -> Result<Option<CarryLine>, AllocError>
    ensures { IfOk result (λ found. found ≡ carry_asked session.now line.now) }
{
    match session {
        Session::Declaring(_) => Ok(None),
        Session::Running(_) => carry_of(alloc, line),
    }
}

// Carries changes on as the line asks, and says if that drops a plan or waits, and what it changed since
// these pairs; the names of elements that left this version with it are kept.
fn carry_after<F: Files>(
    alloc: Global,
    state: &mut PromptState,
    line: &str,
    carry: CarryLine,
    form: Form,
    pairs: &PairsBefore,
    newest: &Option<ArcValue<Schema>>,
) -> Result<LineAnswer, AllocError>
    requires foreign { IsForeign line.now }
    requires asked { carry_asked state.old.session line.now ≡ Some carry }
    ensures { IfOk result (λ answer. IsAnswered F.keeps form state.old line.now answer.text.items answer.is_bad state.new) }
{
    let Session::Running(opened) = &mut state.session else {
        return Err(AllocError);
    };
    let dropped = plan_dropped(alloc, opened)?;
    let text = carry_on(alloc, opened, carry)?;
    let remark = carried_text(alloc, dropped, text.as_str())?;
    let details = carry_details(alloc, opened, pairs)?;
    keep_gone(alloc, &mut state.gone, newest, &opened.world)?;
    let answer = answer_of(alloc, form, text.as_str(), false, remark.as_str(), &details)?;
    Ok(answer)
}

// Carries changes on as the line asks.
fn carry_line<F: Files>(
    alloc: Global,
    state: &mut PromptState,
    line: &str,
    carry: CarryLine,
    form: Form,
) -> Result<LineAnswer, AllocError>
    requires foreign { IsForeign line.now }
    requires asked { carry_asked state.old.session line.now ≡ Some carry }
    ensures { IfOk result (λ answer. IsAnswered F.keeps form state.old line.now answer.text.items answer.is_bad state.new) }
{
    let pairs = pairs_before(&state.session, form)?;
    let newest = newest_of(&state.session)?;
    let answer = carry_after::<F>(alloc, state, line, carry, form, &pairs, &newest)?;
    Ok(answer)
}

// Takes the last declaration back, and says which.
fn undo_line<F: Files>(
    alloc: Global,
    state: &mut PromptState,
    line: &str,
    form: Form,
) -> Result<LineAnswer, AllocError>
    requires foreign { IsForeign line.now }
    requires asked { is_undo line.now ≡ true }
    ensures { IfOk result (λ answer. IsAnswered F.keeps form state.old line.now answer.text.items answer.is_bad state.new) }
{
    let taken = take_back(alloc, state)?;
    let remark = taken_text(alloc, &state.session, taken.as_ref())?;
    let answer = answer_of(alloc, form, "", false, remark.as_str(), &no_details())?;
    Ok(answer)
}

// Gives the memory of the log's entries back, and says of how many.
fn cut_line<F: Files>(
    alloc: Global,
    state: &mut PromptState,
    line: &str,
    form: Form,
) -> Result<LineAnswer, AllocError>
    requires foreign { IsForeign line.now }
    requires asked { is_cut line.now ≡ true }
    ensures { IfOk result (λ answer. IsAnswered F.keeps form state.old line.now answer.text.items answer.is_bad state.new) }
{
    let remark = cut_text(alloc, &state.session)?;
    cut_log(&mut state.session);
    let answer = answer_of(alloc, form, "", false, remark.as_str(), &no_details())?;
    Ok(answer)
}

// Has a checkpoint of the world kept in a file, and says what came of it.
fn save_line<F: Files>(
    alloc: Global,
    state: &mut PromptState,
    files: &mut F,
    line: &str,
    form: Form,
) -> Result<LineAnswer, AllocError>
    requires foreign { IsForeign line.now }
    requires asked { is_save line.now ≡ true }
    ensures { IfOk result (λ answer. IsAnswered F.keeps form state.old line.now answer.text.items answer.is_bad state.new) }
{
    let remark = saved_text(alloc, &state.session, files, line)?;
    let answer = answer_of(alloc, form, "", false, remark.as_str(), &no_details())?;
    Ok(answer)
}

// What a line is answered that does not carry changes on: it takes a declaration back, or cuts the
// log, or saves, or shows a view of the session, or gets its reply.
fn calm_line<F: Files>(
    alloc: Global,
    state: &mut PromptState,
    files: &mut F,
    line: &str,
    form: Form,
) -> Result<LineAnswer, AllocError>
    requires foreign { IsForeign line.now }
    requires calm { carry_asked state.old.session line.now ≡ None }
    ensures { IfOk result (λ answer. IsAnswered F.keeps form state.old line.now answer.text.items answer.is_bad state.new) }
{
    if is_undo(alloc, line.as_bytes())? {
        undo_line::<F>(alloc, state, line, form)
    } else if is_cut(alloc, line.as_bytes())? {
        cut_line::<F>(alloc, state, line, form)
    } else if is_save(line) {
        save_line(alloc, state, files, line, form)
    } else {
        view_line::<F>(alloc, state, line, form)
    }
}

// What a line is answered that no script has.
fn own_line<F: Files>(
    alloc: Global,
    state: &mut PromptState,
    files: &mut F,
    line: &str,
    form: Form,
) -> Result<LineAnswer, AllocError>
    requires foreign { IsForeign line.now }
    ensures { IfOk result (λ answer. IsAnswered F.keeps form state.old line.now answer.text.items answer.is_bad state.new) }
{
    match carry_asked(alloc, &state.session, line.as_bytes())? {
        Some(carry) => carry_line::<F>(alloc, state, line, carry, form),
        None => calm_line(alloc, state, files, line, form),
    }
}

/// What a line is answered, and what it leaves: the reply of the session, or, if the line is one of
/// the prompt's own, a view of the session, which stays as it was, what `advance` and `finish` did,
/// what `undo` took back, what `cut` gave back, or what came of `save`.
///
/// - `state`: the session, and its declarations.
/// - `files`: where `save` keeps a checkpoint.
/// - `line`: the line without its ending.
/// - `form`: the form in which it is answered.
///
/// Refused only when out of memory; discard the state then.
pub(crate) fn answer_line<F: Files>(
    alloc: Global,
    state: &mut PromptState,
    files: &mut F,
    line: &[u8],
    form: Form,
) -> Result<LineAnswer, AllocError>
    ensures { IfOk result (λ answer. IsAnswered F.keeps form state.old line.now answer.text.items answer.is_bad state.new) }
{
    let Ok(line) = std::str::from_utf8(line) else {
        let answer = answer_of(
            alloc,
            form,
            "bad line\n",
            true,
            "the line is not UTF-8",
            &no_details(),
        )?;
        return Ok(answer);
    };
    if is_foreign(alloc, line.as_bytes())? {
        return own_line(alloc, state, files, line, form);
    }
    reply_line::<F>(alloc, state, line, form)
}

// The prompt on a terminal.
fn shown_prompt(alloc: Global, session: &Session) -> Result<String, AllocError>
    ensures { IfOk result (λ text. string_bytes text ≡ prompt_text form.Shown session.now) }
{
    let mut text = String::new(alloc);
    match session {
        Session::Declaring(_) => text.push_str("> ")?,
        Session::Running(opened) => {
            let version = opened.world.timeline().newest();
            let moment = opened.world.moment();
            write!(text, "v{version} @{moment}> ")?;
        }
    }
    Ok(text)
}

/// The prompt: the newest version and the moment, as `v3 @20> `, or `> ` before `open`. Nothing if
/// the form has none.
///
/// - `session`: the session, which is only read.
/// - `form`: the form in which lines are answered.
pub(crate) fn prompt_text(
    alloc: Global,
    session: &Session,
    form: Form,
) -> Result<String, AllocError>
    ensures { IfOk result (λ text. string_bytes text ≡ prompt_text form session.now) }
{
    match form {
        Form::Plain | Form::Json => Ok(String::new(alloc)),
        Form::Shown => shown_prompt(alloc, session),
    }
}
