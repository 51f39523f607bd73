// The bytes of a job's lines, exactly those of document 01, The printed answer, with the eighth field of 02, P7: VERDICT, the lines of the
// checks, SC and CL.
//
// Each function puts a field, a line or lines behind the text that a page holds, a block of 2,048 bytes, or nothing where a line is missing. What is
// hard is that nothing is cut: each says how many bytes it puts at most, and the sum is below 2,048 where the set numbers are those of
// at most 16 load rows; and that what a line says is read back from its text (`proofs/`).
#![tactic(auto)]

mod line_fields;
mod line_key;
pub mod refused_book;

ghost use Rattle.std.specs.Prelude.{◌≡◌, [], ◌∷◌, ◌≤◌, length, cond};
ghost use Rattle.lines.specs.Lines.{LineName, combination_lines, later_lines, value_of, exactness_of, figure_exactness, verdict_line, check_line, river_line};
ghost use Rattle.lines.specs.Numbered.{Numbered};
ghost use Rattle.block.specs.Block.{Put, block_of};
ghost use Rattle.block.specs.Fields.{field};
ghost use Rattle.printing.specs.line_fields.Text.{HYPHEN, combination_text, check_text, name_text, value_text};
ghost use Rattle.printing.specs.steps.Ending.{ending};
ghost use Rattle.printing.specs.Text.{texts, line_text};
ghost use Rattle.printing.specs.AnswerText.{text};
ghost use Rattle.printing.specs.steps.Room.{lines_room, answer_room, line_room};

use block::Block;
use checks::{Check, Figure};
use lines::{Answer, Line, Lines, RiverLine, Verdict};
use rows::keys::Key;
use sets::Combination;

// The letters of a combination.
fn put_combination(page: &mut Block, combination: Combination)
    ensures { Put page.old (combination_text combination) 3 page.new }
{
    match combination {
        Combination::I => page.put(b"I"),
        Combination::II => page.put(b"II"),
        Combination::III => page.put(b"III"),
        Combination::IV => page.put(b"IV"),
    }
}

// The letters of a check, behind a hyphen.
fn put_check(page: &mut Block, check: Check)
    ensures { Put page.old (HYPHEN ∷ check_text check) 3 page.new }
{
    match check {
        Check::OP => page.put(b"-OP"),
        Check::OM => page.put(b"-OM"),
        Check::SL => page.put(b"-SL"),
        Check::PR => page.put(b"-PR"),
        Check::RK => page.put(b"-RK"),
    }
}

// The value of a check.
fn put_figure(page: &mut Block, figure: Figure)
    ensures { Put page.old (field (value_text (value_of figure))) 21 page.new }
{
    match figure {
        Figure::Nothing => page.put(b",none"),
        Figure::Number(n) => page.put_number(n),
        Figure::Off => page.put(b",off"),
    }
}

// One letter of two, as Y or N, and E or R.
fn put_letter(page: &mut Block, holds: bool, yes: u8, no: u8)
    ensures { Put page.old (field (cond holds yes no ∷ [])) 2 page.new }
{
    page.push(b',');
    page.push(if holds { yes } else { no });
}

// E or R of a number (02, P7), and the end of the line.
fn put_exactness(page: &mut Block, exact: bool)
    ensures { Put page.old (ending (exactness_of exact)) 4 page.new }
{
    put_letter(page, exact, b'E', b'R');
    page.put(b"\r\n");
}

// The eighth field of a check's line, which words have empty (02, P7), and the end of the line.
fn put_ending(page: &mut Block, figure: Figure, exact: bool)
    ensures { Put page.old (ending (figure_exactness figure exact)) 4 page.new }
{
    match figure {
        Figure::Nothing | Figure::Off => page.put(b",\r\n"),
        Figure::Number(_) => put_exactness(page, exact),
    }
}

// VERDICT, which every job has.
fn put_verdict(page: &mut Block, key: Key, verdict: Verdict)
    ensures { Put page.old (line_text key (verdict_line verdict)) 43 page.new }
{
    line_key::put_key(page, key);
    page.put(b"VERDICT");
    line_fields::put_verdict_value(page, verdict);
    page.put(b",,,,\r\n");
}

// The line of a check in a combination, if there is one.
fn put_line(page: &mut Block, key: Key, combination: Combination, check: Check, line: Line)
    ensures { Put page.old (texts key (check_line combination check line)) (line_room line) page.new }
{
    match line {
        Line::Missing => {}
        Line::Shown {
            figure,
            limit,
            set,
            passes,
            exact,
        } => {
            line_key::put_key(page, key);
            put_combination(page, combination);
            put_check(page, check);
            put_figure(page, figure);
            page.put_number(limit);
            page.put_number(set);
            put_letter(page, passes, b'Y', b'N');
            put_ending(page, figure, exact);
        }
    }
}

// SC or CL, given by its letters, if there is one.
fn put_river_line(page: &mut Block, key: Key, letters: &[u8; 2], line: RiverLine)
    ensures { (name : LineName) → letters.now ≡ name_text name
        → Put page.old (texts key (river_line name line)) 78 page.new }
{
    match line {
        RiverLine::Missing => {}
        RiverLine::Shown {
            value,
            limit,
            passes,
            exact,
        } => {
            line_key::put_key(page, key);
            page.put(letters);
            line_fields::put_signed(page, value);
            page.put_number(limit);
            page.push(b',');
            put_letter(page, passes, b'Y', b'N');
            put_exactness(page, exact);
        }
    }
}

// The lines of a combination. Five calls and no loop over pairs: `lines_room` counts the room line by line.
fn put_lines(page: &mut Block, key: Key, combination: Combination, lines: Lines)
    ensures { Put page.old (texts key (combination_lines combination lines)) (lines_room lines) page.new }
{
    put_line(page, key, combination, Check::OP, lines.op);
    put_line(page, key, combination, Check::OM, lines.om);
    put_line(page, key, combination, Check::SL, lines.sl);
    put_line(page, key, combination, Check::PR, lines.pr);
    put_line(page, key, combination, Check::RK, lines.rk);
}

// The lines after VERDICT.
fn put_later(page: &mut Block, key: Key, answer: Answer)
    ensures { Put page.old (texts key (later_lines answer)) (answer_room answer) page.new }
{
    put_lines(page, key, Combination::I, answer.one);
    put_lines(page, key, Combination::II, answer.two);
    put_lines(page, key, Combination::III, answer.three);
    put_lines(page, key, Combination::IV, answer.four);
    put_river_line(page, key, b"SC", answer.depth);
    put_river_line(page, key, b"CL", answer.clear);
}

// The bytes of a job's lines, of a refused job those of VERDICT alone. Where its set numbers are those of at most 16 load rows they
// fit, and nothing is cut.
pub fn answer_text(key: Key, answer: Answer) -> Block
    ensures value { result ≡ block_of (text key answer) }
    ensures whole { Numbered answer → length (text key answer) ≤ 2048 }
{
    let mut page = Block::new();
    put_verdict(&mut page, key, answer.verdict);
    if !lines::stands_alone(answer.verdict) {
        put_later(&mut page, key, answer);
    }
    page
}
