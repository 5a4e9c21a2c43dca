// The shape of the lines between header and `-`, and the blocks that they open and close.
//
// What is right stands in specs/Blocks. A block holds fields and further blocks, which hold fields and blocks in turn: the walk
// over a block and the walk over its items call each other, and specs/Mutual says what they promise each other.
#![tactic(auto)]

ghost use Rattle.std.specs.Prelude.{◌≡◌, ◌&&◌, ◌+◌, ◌≤◌, leb, length};
ghost use Rattle.text.specs.Bytes.{same};
ghost use Rattle.blocks.specs.Blocks.{is_tagged, named, role_of, nest_pass};
ghost use Rattle.blocks.specs.Mutual.{OfBlock, OfItems};

use lines::Verdict;
use text::Class;

// What a line does: it is the `-` line, it opens or closes a block, it is a field, or it has not the shape of a line.
#[derive(Clone, Copy)]
enum Role {
    End,
    Opens,
    Closes,
    Field,
    Wrong,
}

// What a walk has left behind it: the line and the place behind what was walked.
#[derive(Clone, Copy)]
struct Walked {
    line: usize,
    at: usize,
}

// A colon, two digits, one upper-case letter, a colon, and at least one character.
#[tactic(auto, unfolding(crate::specs::Blocks::is_tagged, text::specs::Classes::in_class))]
fn is_tagged(line: &[u8]) -> bool
    ensures { result ≡ is_tagged line.now }
{
    6 <= line.len()
        && line[0] == b':'
        && text::in_class(Class::Digit, line[1])
        && text::in_class(Class::Digit, line[2])
        && text::in_class(Class::Upper, line[3])
        && line[4] == b':'
}

// The role of a line that is about a block, if the name is good.
#[tactic(auto, unfolding(crate::specs::Blocks::named))]
fn role_named(role: Role, name: &[u8]) -> Role
    ensures { result ≡ named role name.now }
{
    if text::is_code(name, 1, 16) {
        role
    } else {
        Role::Wrong
    }
}

#[tactic(auto, using(crate::proofs::Ways::tagged_long, text::proofs::Laws::rest_of), unfolding(crate::specs::Blocks::role_of, crate::specs::Blocks::name_of, text::specs::Bytes::bytes))]
fn role_of(line: &[u8]) -> Role
    ensures { result ≡ role_of line.now }
{
    if text::equals(line, b"-") {
        return Role::End;
    }
    if !is_tagged(line) {
        return Role::Wrong;
    }
    if text::begins_with(line, b":16R:") {
        return role_named(Role::Opens, &line[5..]);
    }
    if text::begins_with(line, b":16S:") {
        return role_named(Role::Closes, &line[5..]);
    }
    Role::Field
}

// The innermost open block has a name; at depth 0 no block is open.
fn is_innermost(depth: usize, innermost: &[u8], name: &[u8]) -> bool
    ensures { result ≡ (leb 1 depth && same innermost.now name.now) }
{
    1 <= depth && text::equals(name, innermost)
}

// The walk over a block, from the place behind its opening line on.
#[cycle(block_items)]
fn block(
    message: &[u8],
    from: usize,
    line: usize,
    depth: usize,
    name: &[u8],
) -> Result<Walked, Verdict>
    requires { (from ≤ length message.now) × (line + 1 ≤ from + 5) }
    ensures { OfBlock message.now from line depth name.now result }
{
    if 8 <= depth {
        return Err(Verdict { number: 7, line });
    }
    items(message, from, line + 1, depth + 1, name)
}

// The walk over the items of a block of that name, from a place and its line through the closing line; at depth 0 it goes up
// to the `-` line.
#[cycle(block_items)]
#[tactic(auto, using(lines::proofs::Laws::located, crate::proofs::Ways::about_long))]
fn items(
    message: &[u8],
    mut at: usize,
    mut line: usize,
    depth: usize,
    name: &[u8],
) -> Result<Walked, Verdict>
    requires { (at ≤ length message.now) × (line ≤ at + 5) }
    ensures { OfItems message.now at line depth name.now result }
{
    // From line to line, where `at` jumps: no range or iterator gives its places.
    while at < message.len() {
        let here = lines::line_at(message, at);
        let text = &message[at..here.end];
        match role_of(text) {
            Role::End => {
                if depth != 0 {
                    return Err(Verdict { number: 6, line });
                }
                at = message.len();
            }
            Role::Opens => {
                let inner = block(message, here.next, line, depth, &text[5..])?;
                at = inner.at;
                line = inner.line;
            }
            Role::Closes => {
                if !is_innermost(depth, name, &text[5..]) {
                    return Err(Verdict { number: 6, line });
                }
                return Ok(Walked {
                    line: line + 1,
                    at: here.next,
                });
            }
            Role::Field => {
                at = here.next;
                line += 1;
            }
            Role::Wrong => return Err(Verdict { number: 5, line }),
        }
    }
    Ok(Walked { line, at })
}

// 5, 6 and 7, in one pass over the lines behind the four of the header.
pub fn nesting(message: &[u8]) -> Verdict
    ensures { result ≡ nest_pass message.now }
{
    match items(message, lines::behind(message, 4), 5, 0, b"") {
        Ok(_) => Verdict::PASS,
        Err(refusal) => refusal,
    }
}
