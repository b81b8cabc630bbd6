//! Conditions.

ghost use Rattle.config_parse.specs.Words as words;
ghost use Rattle.config_parse.specs.Symbols as symbol;
ghost use Rattle.config_parse.specs.Gives.{Gives, Skips};
ghost use Rattle.config_parse.specs.Read as spec;
ghost use Rattle.std.specs.Prelude.{ℕ};

use crate::error::ReadError;
use crate::names::{conjoined, disjoined, literal, operand_token, pattern};
use crate::tokens::{below, first, next, refuse};
use config_lex::{Lexeme, Token, Word};
use config_tree::{Condition, Literal, MatchPattern, Operand};
use plain_data::{Boxed, Items};
use std::alloc::Global;

/// A literal of a list.
fn one_literal(tokens: &[Lexeme]) -> Result<(Literal, &[Lexeme]), ReadError>
    ensures { Gives result (spec.one words.literal) tokens.now }
{
    let (token, rest) = next(tokens)?;
    match literal(token)? {
        Some(found) => Ok((found, rest)),
        None => Err(refuse(tokens)),
    }
}

/// Behind these literals of a list.
#[tactic(auto, using(crate::proofs::Turns::turns))]
fn more_literals(
    front: Items<Literal>,
    tokens: &[Lexeme],
) -> Result<(Items<Literal>, &[Lexeme]), ReadError>
    ensures { (d : ℕ) → Gives result (spec.behind front (spec.read d symbol.MoreLiterals))
        tokens.now }
{
    let mut found = front;
    let mut rest = tokens;
    loop {
        let Some((token, behind)) = first(rest) else {
            return Err(refuse(rest));
        };
        match token {
            Token::CloseBracket => return Ok((found, behind)),
            Token::Comma => {
                let (member, after) = one_literal(behind)?;
                found.push(member)?;
                rest = after;
            }
            _ => return Err(refuse(rest)),
        }
    }
}

/// Behind the `[` of a list.
#[tactic(auto, using(crate::proofs::Turns::turns))]
fn literals(alloc: Global, tokens: &[Lexeme]) -> Result<(Items<Literal>, &[Lexeme]), ReadError>
    ensures { (d : ℕ) → Gives result (spec.read d symbol.Literals) tokens.now }
{
    let (token, rest) = next(tokens)?;
    let mut found = Items::new(alloc);
    match token {
        Token::CloseBracket => Ok((found, rest)),
        _ => {
            let (member, rest) = one_literal(tokens)?;
            found.push(member)?;
            more_literals(found, rest)
        }
    }
}

#[tactic(auto, using(crate::proofs::Turns::turns))]
fn operand(
    alloc: Global,
    depth: usize,
    tokens: &[Lexeme],
) -> Result<(Operand, &[Lexeme]), ReadError>
    ensures { Gives result (spec.read depth symbol.Operand) tokens.now }
{
    let (token, rest) = next(tokens)?;
    match token {
        Token::OpenBracket => {
            below(depth, tokens)?;
            let (found, rest) = literals(alloc, rest)?;
            Ok((Operand::List(found), rest))
        }
        other => match operand_token(other)? {
            Some(found) => Ok((found, rest)),
            None => Err(refuse(tokens)),
        },
    }
}

/// The right side of `=~` and `!~`.
fn one_pattern(tokens: &[Lexeme]) -> Result<(MatchPattern, &[Lexeme]), ReadError>
    ensures { Gives result (spec.one words.pattern) tokens.now }
{
    let (token, rest) = next(tokens)?;
    match pattern(token)? {
        Some(found) => Ok((found, rest)),
        None => Err(refuse(tokens)),
    }
}

/// The `in` of `not in`.
fn in_word(tokens: &[Lexeme]) -> Result<&[Lexeme], ReadError>
    ensures { Skips result (spec.one spec.is_in) tokens.now }
{
    let (token, rest) = next(tokens)?;
    match token {
        Token::Word(Word::In) => Ok(rest),
        _ => Err(refuse(tokens)),
    }
}

fn close_paren(tokens: &[Lexeme]) -> Result<&[Lexeme], ReadError>
    ensures { Skips result (spec.one spec.is_close_paren) tokens.now }
{
    let (token, rest) = next(tokens)?;
    match token {
        Token::CloseParen => Ok(rest),
        _ => Err(refuse(tokens)),
    }
}

/// Behind the first operand of a comparison.
#[tactic(auto, using(crate::proofs::Turns::turns))]
fn tail(
    alloc: Global,
    depth: usize,
    left: Operand,
    tokens: &[Lexeme],
) -> Result<(Condition, &[Lexeme]), ReadError>
    ensures { Gives result (spec.behind left (spec.read depth symbol.Tail)) tokens.now }
{
    let Some((token, behind)) = first(tokens) else {
        return Ok((Condition::Operand(left), tokens));
    };
    match token {
        Token::Comparison(comparison) => {
            let (right, rest) = operand(alloc, depth, behind)?;
            Ok((Condition::Compared(*comparison, left, right), rest))
        }
        Token::Matching(matching) => {
            let (right, rest) = one_pattern(behind)?;
            Ok((Condition::Matched(*matching, left, right), rest))
        }
        Token::Word(Word::In) => {
            let (right, rest) = operand(alloc, depth, behind)?;
            Ok((Condition::In(left, right), rest))
        }
        Token::Word(Word::Not) => {
            let behind = in_word(behind)?;
            let (right, rest) = operand(alloc, depth, behind)?;
            Ok((Condition::NotIn(left, right), rest))
        }
        _ => Ok((Condition::Operand(left), tokens)),
    }
}

#[tactic(auto, unfolding(crate::specs::Read::compare))]
fn compare(
    alloc: Global,
    depth: usize,
    tokens: &[Lexeme],
) -> Result<(Boxed<Condition>, &[Lexeme]), ReadError>
    ensures { Gives result (spec.compare depth) tokens.now }
{
    let (left, rest) = operand(alloc, depth, tokens)?;
    let (found, rest) = tail(alloc, depth, left, rest)?;
    Ok((Boxed::new(alloc, found)?, rest))
}

/// A unary part: `!` before one, a condition in parentheses, or a comparison.
#[tactic(auto, using(crate::proofs::Turns::unaries))]
#[cycle(conditions)]
fn unary(
    alloc: Global,
    depth: usize,
    tokens: &[Lexeme],
) -> Result<(Boxed<Condition>, &[Lexeme]), ReadError>
    ensures { Gives result (spec.read depth symbol.Unary) tokens.now }
{
    let (token, rest) = next(tokens)?;
    match token {
        Token::Exclamation => {
            let depth = below(depth, tokens)?;
            let (operand, rest) = unary(alloc, depth, rest)?;
            Ok((Boxed::new(alloc, Condition::Not(operand))?, rest))
        }
        Token::OpenParen => {
            let depth = below(depth, tokens)?;
            let (inner, rest) = condition(alloc, depth, rest)?;
            let rest = close_paren(rest)?;
            Ok((inner, rest))
        }
        _ => compare(alloc, depth, tokens),
    }
}

/// Behind an operand of `and` and `nand`.
#[tactic(auto, using(crate::proofs::Turns::turns))]
#[cycle(conditions)]
fn ands(
    alloc: Global,
    depth: usize,
    front: Boxed<Condition>,
    tokens: &[Lexeme],
) -> Result<(Boxed<Condition>, &[Lexeme]), ReadError>
    ensures { Gives result (spec.behind front (spec.read depth symbol.Ands)) tokens.now }
{
    let mut left = front;
    let mut rest = tokens;
    loop {
        let Some((token, behind)) = first(rest) else {
            return Ok((left, rest));
        };
        match token {
            Token::Word(Word::Conjunction(joint)) => {
                let (right, after) = unary(alloc, depth, behind)?;
                left = conjoined(alloc, *joint, left, right)?;
                rest = after;
            }
            _ => return Ok((left, rest)),
        }
    }
}

#[tactic(auto, unfolding(crate::specs::Read::joined))]
#[cycle(conditions)]
fn joined(
    alloc: Global,
    depth: usize,
    tokens: &[Lexeme],
) -> Result<(Boxed<Condition>, &[Lexeme]), ReadError>
    ensures { Gives result (spec.joined depth) tokens.now }
{
    let (left, rest) = unary(alloc, depth, tokens)?;
    ands(alloc, depth, left, rest)
}

/// Behind an operand of `or` and `xor`.
#[tactic(auto, using(crate::proofs::Turns::turns))]
#[cycle(conditions)]
fn ors(
    alloc: Global,
    depth: usize,
    front: Boxed<Condition>,
    tokens: &[Lexeme],
) -> Result<(Boxed<Condition>, &[Lexeme]), ReadError>
    ensures { Gives result (spec.behind front (spec.read depth symbol.Ors)) tokens.now }
{
    let mut left = front;
    let mut rest = tokens;
    loop {
        let Some((token, behind)) = first(rest) else {
            return Ok((left, rest));
        };
        match token {
            Token::Word(Word::Disjunction(joint)) => {
                let (right, after) = joined(alloc, depth, behind)?;
                left = disjoined(alloc, *joint, left, right)?;
                rest = after;
            }
            _ => return Ok((left, rest)),
        }
    }
}

#[tactic(auto, unfolding(crate::specs::Read::condition))]
#[cycle(conditions)]
pub fn condition(
    alloc: Global,
    depth: usize,
    tokens: &[Lexeme],
) -> Result<(Boxed<Condition>, &[Lexeme]), ReadError>
    ensures { Gives result (spec.condition depth) tokens.now }
{
    let (left, rest) = joined(alloc, depth, tokens)?;
    ors(alloc, depth, left, rest)
}
