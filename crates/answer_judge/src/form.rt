// Whether the fields of a record are in form, which is number 18, by the slots of a block at a time.
ghost use Rattle.std.specs.Prelude.{◌≡◌, true, [], ◌∷◌, take, drop};
ghost use Rattle.format.specs.Writable.{hold};
ghost use Rattle.answer.specs.Records.{password_slot, receiver_slot};
ghost use Rattle.answer_values.specs.Writable.{fitted, reason_tests, tests, in_form};
ghost use Rattle.answer_judge.specs.Parts.{reason_form};

use answer::{Answer, Reason};
use text::Class;

// SEME and PREP; 23G is not held, and that there are ten reasons is their type's.
fn general_form(answer: Answer) -> bool
    ensures { result ≡ hold (take 4 (tests answer)) }
{
    let seme = answer.seme.in_form(1, 16);
    let prep = typed::prep_form(answer.prep);
    seme & prep
}

// MAST and RELA are the member's own references; the others may be the clearing house's, which have hyphens.
fn links_form(answer: Answer) -> bool
    ensures { result ≡ hold (take 7 (drop 4 (tests answer))) }
{
    let mast = answer.mast.in_form(0, 16);
    let prev = answer.prev.in_form_of(Class::Hyphened, 0, 16);
    let rela = answer.rela.in_form(0, 16);
    let list = answer.list.in_form_of(Class::Hyphened, 0, 16);
    let bask = answer.bask.in_form_of(Class::Hyphened, 0, 16);
    let prog = answer.prog.in_form_of(Class::Hyphened, 0, 16);
    let comm = answer.comm.in_form_of(Class::Hyphened, 0, 16);
    mast & (prev & (rela & (list & (bask & (prog & comm)))))
}

// A reason, behind one that stands or not: it stands only behind one that does, and has a text only where it stands itself.
fn reason_form(reason: Reason, before: bool) -> bool
    ensures { result ≡ reason_form before reason }
{
    let absent = reason.code.in_form(0, 0);
    let four = reason.code.in_form(4, 4);
    let text = remark::in_form(reason.text, 0, 35);
    let stands = 0 < reason.code.len;
    let silent = reason.text.len == 0;
    ((absent | four) & (!stands | before)) & (text & (silent | stands))
}

fn reasons_form(answer: Answer) -> bool
    ensures { result ≡ hold (reason_tests answer true 12 0 10) }
{
    let mut before = true;
    for number in 0..10 {
        let reason = answer::reason_at(answer, number);
        if !reason_form(reason, before) {
            return false;
        }
        before = 0 < reason.code.len;
    }
    true
}

fn header_form(answer: Answer) -> bool
    ensures { result ≡ hold (fitted password_slot answer.password ∷ fitted receiver_slot answer.receiver ∷ []) }
{
    let password = answer.password.in_form(0, 12);
    let receiver = answer.receiver.in_form(1, 8);
    password & receiver
}

pub fn in_form(answer: Answer) -> bool
    ensures { result ≡ in_form answer }
{
    let general = general_form(answer);
    let links = links_form(answer);
    let status = answer.status.in_form();
    let reasons = reasons_form(answer);
    let header = header_form(answer);
    general & (links & (status & (reasons & header)))
}
