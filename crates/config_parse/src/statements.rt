//! Statements and sections.

ghost use Rattle.std.specs.Prelude.{◌≡◌, ◌∷◌, ◌++◌, [], IfOk, OnOk};
ghost use Rattle.config_tree.specs.Joining as joining;
ghost use Rattle.config_parse.specs.Machine.{last_arm};
ghost use Rattle.config_parse.specs.Symbols as symbol;
ghost use Rattle.config_parse.specs.Gives.{Gives};
ghost use Rattle.config_parse.specs.Read as spec;

use crate::conditions::condition;
use crate::error::ReadError;
use crate::tokens::{below, first, is_if, next, refuse};
use crate::values::plugin;
use config_lex::{Lexeme, Section, Token, Word};
use config_tree::{Arm, Config, Plugin, Statement};
use plain_data::Items;
use std::alloc::{AllocError, Global};

/// Behind the `{` of an input section: plugins alone.
#[tactic(auto, using(crate::proofs::Turns::turns))]
fn plugins(
    alloc: Global,
    depth: usize,
    tokens: &[Lexeme],
) -> Result<(Items<Plugin>, &[Lexeme]), ReadError>
    ensures { Gives result (spec.behind [] (spec.read depth symbol.Plugins)) tokens.now }
{
    let mut found: Items<Plugin> = Items::new(alloc);
    let mut rest = tokens;
    loop {
        let (token, behind) = next(rest)?;
        match token {
            Token::CloseBrace => return Ok((found, behind)),
            _ => {
                let (item, after) = plugin(alloc, depth, rest)?;
                found.push(item)?;
                rest = after;
            }
        }
    }
}

/// An input section behind its word.
#[tactic(auto, using(crate::proofs::Turns::turns))]
fn plugins_block(
    alloc: Global,
    depth: usize,
    tokens: &[Lexeme],
) -> Result<(Items<Plugin>, &[Lexeme]), ReadError>
    ensures { Gives result (spec.read depth symbol.PluginsBlock) tokens.now }
{
    let (token, rest) = next(tokens)?;
    match token {
        Token::OpenBrace => {
            let depth = below(depth, tokens)?;
            plugins(alloc, depth, rest)
        }
        _ => Err(refuse(tokens)),
    }
}

/// A condition and a block.
#[tactic(auto, unfolding(crate::specs::Read::arm))]
#[cycle(statements)]
fn arm(alloc: Global, depth: usize, tokens: &[Lexeme]) -> Result<(Arm, &[Lexeme]), ReadError>
    ensures { Gives result (spec.arm depth) tokens.now }
{
    let (test, rest) = condition(alloc, depth, tokens)?;
    let (statements, rest) = block(alloc, depth, rest)?;
    let arm = Arm {
        condition: Some(test.into_inner()),
        block: statements,
    };
    Ok((arm, rest))
}

/// The arms with the one of `else`.
fn with_last(front: Items<Arm>, statements: Items<Statement>) -> Result<Items<Arm>, AllocError>
    ensures { IfOk result (λ made. made ≡ front ++ last_arm statements ∷ []) }
{
    let mut arms = front;
    arms.push(Arm {
        condition: None,
        block: statements,
    })?;
    Ok(arms)
}

/// Behind these arms of a branch.
#[tactic(auto, using(crate::proofs::Turns::turns))]
#[cycle(statements)]
fn otherwise(
    alloc: Global,
    depth: usize,
    front: Items<Arm>,
    tokens: &[Lexeme],
) -> Result<(Items<Arm>, &[Lexeme]), ReadError>
    ensures { Gives result (spec.behind front (spec.read depth symbol.Otherwise)) tokens.now }
{
    let mut found = front;
    let mut rest = tokens;
    loop {
        let Some((token, behind)) = first(rest) else {
            return Ok((found, rest));
        };
        match token {
            Token::Word(Word::Else) => {
                let (second, next) = next(behind)?;
                if is_if(second) {
                    let (item, after) = arm(alloc, depth, next)?;
                    found.push(item)?;
                    rest = after;
                } else {
                    let (statements, after) = block(alloc, depth, behind)?;
                    return Ok((with_last(found, statements)?, after));
                }
            }
            _ => return Ok((found, rest)),
        }
    }
}

/// The arms of a branch, behind its `if`.
#[tactic(auto, unfolding(crate::specs::Read::arms))]
#[cycle(statements)]
fn arms(
    alloc: Global,
    depth: usize,
    tokens: &[Lexeme],
) -> Result<(Items<Arm>, &[Lexeme]), ReadError>
    ensures { Gives result (spec.arms depth) tokens.now }
{
    let (item, rest) = arm(alloc, depth, tokens)?;
    let mut front = Items::new(alloc);
    front.push(item)?;
    otherwise(alloc, depth, front, rest)
}

/// A branch or a plugin.
#[tactic(auto, unfolding(crate::specs::Read::statement))]
#[cycle(statements)]
fn statement(
    alloc: Global,
    depth: usize,
    tokens: &[Lexeme],
) -> Result<(Statement, &[Lexeme]), ReadError>
    ensures { Gives result (spec.statement depth) tokens.now }
{
    let (token, behind) = next(tokens)?;
    if is_if(token) {
        let (branch, rest) = arms(alloc, depth, behind)?;
        Ok((Statement::Branch(branch), rest))
    } else {
        let (item, rest) = plugin(alloc, depth, tokens)?;
        Ok((Statement::Plugin(item), rest))
    }
}

/// Behind the `{` of a block, or of a filter or output section.
#[tactic(auto, using(crate::proofs::Turns::turns))]
#[cycle(statements)]
fn statements(
    alloc: Global,
    depth: usize,
    tokens: &[Lexeme],
) -> Result<(Items<Statement>, &[Lexeme]), ReadError>
    ensures { Gives result (spec.behind [] (spec.read depth symbol.Statements)) tokens.now }
{
    let mut found: Items<Statement> = Items::new(alloc);
    let mut rest = tokens;
    loop {
        let (token, behind) = next(rest)?;
        match token {
            Token::CloseBrace => return Ok((found, behind)),
            _ => {
                let (item, after) = statement(alloc, depth, rest)?;
                found.push(item)?;
                rest = after;
            }
        }
    }
}

/// A block, or a filter or output section behind its word.
#[tactic(auto, using(crate::proofs::Turns::turns))]
#[cycle(statements)]
fn block(
    alloc: Global,
    depth: usize,
    tokens: &[Lexeme],
) -> Result<(Items<Statement>, &[Lexeme]), ReadError>
    ensures { Gives result (spec.read depth symbol.Block) tokens.now }
{
    let (token, rest) = next(tokens)?;
    match token {
        Token::OpenBrace => {
            let depth = below(depth, tokens)?;
            statements(alloc, depth, rest)
        }
        _ => Err(refuse(tokens)),
    }
}

fn add_inputs(config: &mut Config, more: Items<Plugin>) -> Result<(), AllocError>
    ensures { OnOk result (config.new ≡ joining.with_inputs config.old more) }
{
    config.inputs.append(more)
}

fn add_filters(config: &mut Config, more: Items<Statement>) -> Result<(), AllocError>
    ensures { OnOk result (config.new ≡ joining.with_filters config.old more) }
{
    config.filters.append(more)
}

fn add_outputs(config: &mut Config, more: Items<Statement>) -> Result<(), AllocError>
    ensures { OnOk result (config.new ≡ joining.with_outputs config.old more) }
{
    config.outputs.append(more)
}

/// The sections of the whole text.
#[tactic(auto, using(crate::proofs::Turns::turns))]
pub fn sections(
    alloc: Global,
    depth: usize,
    tokens: &[Lexeme],
) -> Result<(Config, &[Lexeme]), ReadError>
    ensures { Gives result (spec.behind joining.empty (spec.read depth symbol.Sections))
        tokens.now }
{
    let mut found = Config {
        inputs: Items::new(alloc),
        filters: Items::new(alloc),
        outputs: Items::new(alloc),
    };
    let mut rest = tokens;
    loop {
        let Some((token, behind)) = first(rest) else {
            return Ok((found, rest));
        };
        match token {
            Token::Word(Word::Section(Section::Input)) => {
                let (more, after) = plugins_block(alloc, depth, behind)?;
                add_inputs(&mut found, more)?;
                rest = after;
            }
            Token::Word(Word::Section(Section::Filter)) => {
                let (more, after) = block(alloc, depth, behind)?;
                add_filters(&mut found, more)?;
                rest = after;
            }
            Token::Word(Word::Section(Section::Output)) => {
                let (more, after) = block(alloc, depth, behind)?;
                add_outputs(&mut found, more)?;
                rest = after;
            }
            _ => return Ok((found, rest)),
        }
    }
}
