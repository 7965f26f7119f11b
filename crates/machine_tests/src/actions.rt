//! Actions and edits of small orders, each with its answer and the order after it.

use crate::edits::{edit_of, first_of, order_of};
use crate::letters::{letters_of, letters_of_answer};
use element_action::apply;
use mos_edits::Edit;
use mos_fields::let_go;
use running_order::Order;
use std::alloc::Global;
use std::process::Abort;
use std::test::Fail;

fn is_spelled(letters: &[char], text: &str) -> bool {
    text.chars().eq(letters.iter().copied())
}

// Applies an edit; checks the answer and the order after it.
fn check(
    rt: &impl Abort,
    alloc: Global,
    order: &mut Option<Order>,
    edit: &Edit,
    answer: &str,
    after: &str,
) -> Result<(), Fail> {
    let answered = letters_of_answer(alloc, &apply(alloc, order, edit))?;
    assert!(rt; is_spelled(&answered, answer), "{answered:?}, not {answer}");
    let left = letters_of(alloc, order)?;
    assert!(rt; is_spelled(&left, after), "{left:?}, not {after}");
    Ok(())
}

// What a word stands for: a dot is nothing.
fn meant(word: Option<&str>) -> &str {
    match word {
        Some(".") | None => "",
        Some(word) => word,
    }
}

fn first(word: Option<&str>) -> char {
    first_of(meant(word))
}

// A line of a form, a story, a target, sources, the answer and the order after it.
fn run_line(
    rt: &impl Abort,
    alloc: Global,
    order: &mut Option<Order>,
    line: &str,
) -> Result<(), Fail> {
    let mut words = line.split(' ');
    let form = first(words.next());
    let story = first(words.next());
    let target = first(words.next());
    let sources = meant(words.next());
    let answer = meant(words.next());
    let after = meant(words.next());
    let edit = edit_of(alloc, form, story, target, sources)?;
    let done = check(rt, alloc, order, &edit, answer, after);
    let_go(edit);
    done
}

fn run(rt: &impl Abort, alloc: Global, order: &mut Option<Order>, lines: &str) -> Result<(), Fail> {
    for line in lines.lines() {
        run_line(rt, alloc, order, line)?;
    }
    Ok(())
}

#[test]
fn moves_before_a_target(rt: HostRuntime) -> Result<(), Fail> {
    let lines = "\
move _ A C . CAB
move _ A A -A CAB
swap _ A A . CAB
delete _ . BB -B CAB
move _ . AC . BAC
move _ C AB . ABC
delete _ . CA . B
insert _ B . . B
replace _ B . . .";
    let mut order = order_of(rt.alloc(), "A+B+C")?;
    run(&rt, rt.alloc(), &mut order, lines)
}

#[test]
fn edits_stories_and_items(rt: HostRuntime) -> Result<(), Fail> {
    let lines = "\
insert _ . D . ABCD
replace _ B BE . ABECD
insert _ A C +C ABECD
replace _ B D +D ABECD
insert A . xy . AxyBECD
move A x y . AyxBECD
swap A x z -z AyxBECD
delete A . x . AyBECD";
    let mut order = order_of(rt.alloc(), "A+B+C")?;
    run(&rt, rt.alloc(), &mut order, lines)
}

#[test]
fn edits_many_at_once(rt: HostRuntime) -> Result<(), Fail> {
    let lines = "\
move _ D LKJIHGFEC . ABLKJIHGFECD
move _ . ABLKJIHGF . ECDABLKJIHGF
move _ B LKJIHGFAL -L ECDABLKJIHGF
insert _ E MNOPQRSTU . MNOPQRSTUECDABLKJIHGF
insert _ E VWXYZVWXY +V MNOPQRSTUECDABLKJIHGF
insert _ . VWXYZ1234 . MNOPQRSTUECDABLKJIHGFVWXYZ1234
delete _ . 4321ZYXWV . MNOPQRSTUECDABLKJIHGF
delete _ . MNOPQRSTUM -M MNOPQRSTUECDABLKJIHGF
delete _ . UTSRQPONM . ECDABLKJIHGF
replace _ C VWXCYZMNO . EVWXCYZMNODABLKJIHGF
replace _ D PQRSTUDCM +C EVWXCYZMNODABLKJIHGF
delete _ . FGHIJKLBA . EVWXCYZMNOD
insert E . abcdefghi . EabcdefghiVWXCYZMNOD
insert E c jklmnopqr . EabjklmnopqrcdefghiVWXCYZMNOD
insert E a stuvwxyzs +s EabjklmnopqrcdefghiVWXCYZMNOD
move E r jklmnopqa . EbjklmnopqarcdefghiVWXCYZMNOD
delete E . rqponmlkj . EbacdefghiVWXCYZMNOD";
    let mut order = order_of(rt.alloc(), "A+B+C+D+E+F+G+H+I+J+K+L")?;
    run(&rt, rt.alloc(), &mut order, lines)
}

#[test]
fn the_first_fault_of_stories_is_answered(rt: HostRuntime) -> Result<(), Fail> {
    let lines = "\
insert _ Q A -Q ABC
insert _ A DAD +A ABC
insert _ . DED +D ABC
replace _ . A - ABC
replace _ Q A -Q ABC
replace _ A ACC +C ABC
replace _ A AA +A ABC
move _ Q Z -Q ABC
move _ A CA -A ABC
move _ A CZC -Z ABC
move _ . CAC -C ABC
move _ . C- - ABC
delete _ . AZ -Z ABC
delete _ . ABA -A ABC
swap _ Q Z -Q ABC
swap _ . Z - ABC
swap _ A Z -Z ABC
swap _ A . - ABC
swap _ A A . ABC
replace _ A AD . ADBC
replace _ D DA +A ADBC";
    let mut order = order_of(rt.alloc(), "A+B+C")?;
    run(&rt, rt.alloc(), &mut order, lines)
}

#[test]
fn the_first_fault_of_items_is_answered(rt: HostRuntime) -> Result<(), Fail> {
    let lines = "\
insert Q q x -Q ABxyz
insert . x x - ABxyz
insert B q x -q ABxyz
insert B x vxv +x ABxyz
insert B . vv +v ABxyz
replace Q q x -Q ABxyz
replace B . x - ABxyz
replace B x xy +y ABxyz
replace B x vv +v ABxyz
move Q q x -Q ABxyz
move B q q -q ABxyz
move B x yx -x ABxyz
move B x yvy -v ABxyz
move B . xyx -x ABxyz
delete Q . q -Q ABxyz
delete B . xvx -v ABxyz
delete B . xx -x ABxyz
swap Q q v -Q ABxyz
swap . q v - ABxyz
swap B q v -q ABxyz
swap B x v -v ABxyz
swap B x x . ABxyz
replace B x xv . ABxvyz
replace B v vx +x ABxvyz
move B . xz . ABvyxz
insert B y w . ABvwyxz
delete B . vz . ABwyx";
    let mut order = order_of(rt.alloc(), "A+Bxyz")?;
    run(&rt, rt.alloc(), &mut order, lines)
}

#[test]
fn edits_need_their_order(rt: HostRuntime) -> Result<(), Fail> {
    let lines = "\
Replace _ . C -r -
Delete _ . . -r -
Metadata _ . . -r -
Air _ . . -r -
swap _ C C -r -
Create _ . A+B . AB
Create _ . A +r AB
swap _ C C -C AB
Replace _ . C . C
swap _ C C . C
Metadata _ . . . C
Air _ . . . C
Delete _ . . . -";
    run(&rt, rt.alloc(), &mut None, lines)
}
