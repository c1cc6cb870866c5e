//! A table of uses. What is wanted comes from the profile, and from the manuals of bash and GNU's
//! utilities.
use crate::{Obstacle, Shape, obstacle_of_use};
use retro_text::Utility;
use std::alloc::Global;
use std::test::Fail;

/// Uses, and why each isn't understood. `<` before one says that standard input is a pipe or a
/// file. Words in capitals are of unknown text.
const USES: &str = "\
true -x LOOSE => none
echo a b => none
echo -n a => none
echo PHRASE => none
echo OPERAND LOOSE => none
echo a -e => none
echo -x => none
echo - => none
echo -e x => Form
echo -nn x => Form
echo -n -e x => Form
echo -n LOOSE => Form
echo LOOSE => Form
pwd => none
pwd a => Form
cd => none
cd OPERAND => none
cd - => Form
cd a b => Form
id => Form
id -u => Form
id -u OPERAND => none
id OPERAND => Form
test -f OPERAND => none
test OPERAND = a => none
test a OPERAND b => Form
test a -a b => Form
test PHRASE => Form
[ -f a => Form
[ -f a ] => none
[ OPERAND ] => none
cat => Terminal
cat f - => Terminal
cat -u f => none
cat -n f => Form
cat LOOSE => Form
cat f -u => Form
< cat => none
tee f => Terminal
< tee -a OPERAND => none
< tee -i f => Form
cut -d OPERAND -f 1 f => Form
cut -d : -f 1 OPERAND => none
cut -f 1 => Terminal
cut -c 1 f => Form
grep x f => Form
grep -F => Form
grep -F x f => none
grep -F OPERAND OPERAND => none
grep -F x => Terminal
grep -F x - => Terminal
< grep -F x => none
grep -F x f -v => Form
mkdir => Form
mkdir -p OPERAND => none
rm -f => none
rm -r a => none
rm a -r => Form
rm -i a => Form
cp a => Form
cp -r a b => Form
cp OPERAND b => none
mv -f OPERAND OPERAND => none";

/// Returns a word of a use.
fn word(alloc: Global, text: &str) -> Result<Shape, Fail> {
    match text {
        "OPERAND" => Ok(Shape::Operand),
        "PHRASE" => Ok(Shape::Phrase),
        "LOOSE" => Ok(Shape::Loose),
        _ => Ok(Shape::Literal(String::from_str(alloc, text)?)),
    }
}

/// Returns the name of what keeps a use from being understood.
fn name(found: Option<Obstacle>) -> &'static str {
    match found {
        None => "none",
        Some(Obstacle::Command) => "Command",
        Some(Obstacle::Form) => "Form",
        Some(Obstacle::Expansion) => "Expansion",
        Some(Obstacle::Terminal) => "Terminal",
        Some(Obstacle::Observed | Obstacle::Need) => "of no use",
    }
}

/// Returns why a use isn't understood.
fn obstacle(alloc: Global, text: &str) -> Result<Option<Obstacle>, Fail> {
    let mut utility = None;
    let mut has_input = false;
    let mut words = Vec::new(alloc);
    for part in text.split(' ') {
        if utility.is_some() {
            words.push(word(alloc, part)?)?;
        } else if part == "<" {
            has_input = true;
        } else {
            utility = Utility::of(part);
        }
    }
    let utility = utility.ok_or("a row has no utility")?;
    Ok(obstacle_of_use(alloc, utility, has_input, words.as_slice())?)
}

/// Makes the call of each row.
fn hold_uses(alloc: Global) -> Result<(), Fail> {
    for row in USES.lines() {
        let (used, wanted) = row.split_once(" => ").ok_or("a row wants nothing")?;
        let found = name(obstacle(alloc, used)?);
        if found != wanted {
            let told = format!(in alloc; "{row}\nfound: {found}")?;
            Err(told)?
        }
    }
    Ok(())
}

#[test]
fn uses_are_understood(rt: HostRuntime) -> Result<(), Fail> {
    hold_uses(rt.alloc())
}
