//! Values, settings and plugins.

ghost use Rattle.std.specs.Prelude.{◌≡◌, [], IfOk};
ghost use Rattle.config_parse.specs.Words as words;
ghost use Rattle.config_parse.specs.Symbols as symbol;
ghost use Rattle.config_parse.specs.Gives.{Fills, Gives, GivesAs, Skips};
ghost use Rattle.config_parse.specs.Read as spec;
ghost use Rattle.config_parse.specs.Tables.{value_of, values_of};

use crate::error::ReadError;
use crate::joining::{
    Entries, ReadHash, ReadSettings, ReadValue, finished, finished_settings, put_entry, put_setting,
};
use crate::names::{key, plugin_name, scalar, setting_name, spelling};
use crate::tokens::{below, first, next, refuse};
use config_lex::{Lexeme, Token};
use config_tree::{Plugin, SettingValue, Settings};
use indexmap::IndexMap;
use plain_data::{Items, Text};
use std::alloc::{AllocError, Global};

#[tactic(auto, using(crate::proofs::Turns::turns))]
#[cycle(values)]
pub fn value(
    alloc: Global,
    depth: usize,
    tokens: &[Lexeme],
) -> Result<(ReadValue, &[Lexeme]), ReadError>
    ensures { GivesAs value_of result (spec.read depth symbol.Value) tokens.now }
{
    let (token, rest) = next(tokens)?;
    match token {
        Token::OpenBracket => {
            let depth = below(depth, tokens)?;
            let (found, rest) = members(alloc, depth, rest)?;
            Ok((ReadValue::Array(found), rest))
        }
        Token::OpenBrace => {
            let depth = below(depth, tokens)?;
            let (found, rest) = pairs(alloc, depth, rest)?;
            Ok((ReadValue::Hash(found), rest))
        }
        Token::Word(word) => nest(alloc, depth, Text::of(alloc, spelling(word))?, rest),
        other => match scalar(other)? {
            Some(found) => Ok((found, rest)),
            None => Err(refuse(tokens)),
        },
    }
}

/// Behind a bareword that is a value: nothing, or the settings of a nested plugin.
#[tactic(auto, using(crate::proofs::Turns::turns))]
#[cycle(values)]
fn nest(
    alloc: Global,
    depth: usize,
    name: Text,
    tokens: &[Lexeme],
) -> Result<(ReadValue, &[Lexeme]), ReadError>
    ensures { GivesAs value_of result (spec.behind name (spec.read depth symbol.Nest)) tokens.now }
{
    let Some((token, rest)) = first(tokens) else {
        return Ok((ReadValue::Text(name), tokens));
    };
    match token {
        Token::OpenBrace => {
            let depth = below(depth, tokens)?;
            let (list, rest) = settings(alloc, depth, rest)?;
            let settings = Settings { list };
            Ok((ReadValue::Nested(Plugin { name, settings }), rest))
        }
        _ => Ok((ReadValue::Text(name), tokens)),
    }
}

/// A value that is joined with no other.
#[cycle(values)]
fn single(
    alloc: Global,
    depth: usize,
    tokens: &[Lexeme],
) -> Result<(SettingValue, &[Lexeme]), ReadError>
    ensures { Gives result (spec.read depth symbol.Value) tokens.now }
{
    let (found, rest) = value(alloc, depth, tokens)?;
    Ok((finished(alloc, found)?, rest))
}

/// Behind the `[` of an array.
#[tactic(auto, using(crate::proofs::Turns::turns))]
#[cycle(values)]
fn members(
    alloc: Global,
    depth: usize,
    tokens: &[Lexeme],
) -> Result<(Items<SettingValue>, &[Lexeme]), ReadError>
    ensures { Gives result (spec.read depth symbol.Members) tokens.now }
{
    let (token, rest) = next(tokens)?;
    let mut found = Items::new(alloc);
    match token {
        Token::CloseBracket => Ok((found, rest)),
        _ => {
            let (member, rest) = single(alloc, depth, tokens)?;
            found.push(member)?;
            more(alloc, depth, found, rest)
        }
    }
}

/// Behind these members of an array.
#[tactic(auto, using(crate::proofs::Turns::turns))]
#[cycle(values)]
fn more(
    alloc: Global,
    depth: usize,
    front: Items<SettingValue>,
    tokens: &[Lexeme],
) -> Result<(Items<SettingValue>, &[Lexeme]), ReadError>
    ensures { Gives result (spec.behind front (spec.read depth symbol.More)) tokens.now }
{
    let mut found = front;
    let mut rest = tokens;
    loop {
        let Some((token, behind)) = first(rest) else {
            return Err(refuse(rest));
        };
        match token {
            Token::CloseBracket => return Ok((found, behind)),
            Token::Comma => {
                let (member, after) = single(alloc, depth, behind)?;
                found.push(member)?;
                rest = after;
            }
            _ => return Err(refuse(rest)),
        }
    }
}

/// The token's key, where it is a key that the table hasn't.
fn fresh(alloc: Global, table: &ReadHash, token: &Token) -> Result<Option<Text>, AllocError>
    ensures { IfOk result (λ found. found ≡ spec.fresh_key table.now.entries token.now) }
{
    let Some(found) = key(token) else {
        return Ok(None);
    };
    let own = Text::of(alloc, found)?;
    if table.contains_key(&own) {
        Ok(None)
    } else {
        Ok(Some(own))
    }
}

fn arrow(tokens: &[Lexeme]) -> Result<&[Lexeme], ReadError>
    ensures { Skips result (spec.one spec.is_arrow) tokens.now }
{
    let (token, rest) = next(tokens)?;
    match token {
        Token::Arrow => Ok(rest),
        _ => Err(refuse(tokens)),
    }
}

/// `=>` and a value.
#[tactic(auto, unfolding(crate::specs::Read::entry))]
#[cycle(values)]
fn entry(
    alloc: Global,
    depth: usize,
    tokens: &[Lexeme],
) -> Result<(ReadValue, &[Lexeme]), ReadError>
    ensures { GivesAs value_of result (spec.entry depth) tokens.now }
{
    let rest = arrow(tokens)?;
    value(alloc, depth, rest)
}

/// `=>` and a value that is joined with no other.
#[cycle(values)]
fn single_entry(
    alloc: Global,
    depth: usize,
    tokens: &[Lexeme],
) -> Result<(SettingValue, &[Lexeme]), ReadError>
    ensures { Gives result (spec.entry depth) tokens.now }
{
    let (found, rest) = entry(alloc, depth, tokens)?;
    Ok((finished(alloc, found)?, rest))
}

/// Behind the `{` of a hash.
#[cycle(values)]
fn pairs(alloc: Global, depth: usize, tokens: &[Lexeme]) -> Result<(ReadHash, &[Lexeme]), ReadError>
    ensures { GivesAs (λ table. table.entries) result
        (spec.behind [] (spec.read depth (symbol.Pairs []))) tokens.now }
{
    let mut found: ReadHash = IndexMap::new(alloc);
    let rest = put_pairs(alloc, depth, &mut found, tokens)?;
    Ok((found, rest))
}

/// Behind these entries of a hash, to which it adds the others. No table is dropped at its faults.
#[tactic(auto, using(crate::proofs::Turns::turns))]
#[cycle(values)]
fn put_pairs<'a>(
    alloc: Global,
    depth: usize,
    found: &mut ReadHash,
    tokens: &'a [Lexeme],
) -> Result<&'a [Lexeme], ReadError>
    ensures { Fills found.new.entries result (spec.pairs depth found.old.entries) tokens.now }
{
    let mut rest = tokens;
    loop {
        let (token, behind) = next(rest)?;
        match token {
            Token::CloseBrace => return Ok(behind),
            other => {
                let Some(key) = fresh(alloc, found, other)? else {
                    return Err(refuse(rest));
                };
                let (item, after) = single_entry(alloc, depth, behind)?;
                put_entry(found, key, item)?;
                rest = after;
            }
        }
    }
}

/// The name of a setting, as a text of its own.
fn own_setting_name(alloc: Global, token: &Token) -> Result<Option<Text>, AllocError>
    ensures { IfOk result (λ found. found ≡ words.setting_name token.now) }
{
    match setting_name(token) {
        Some(name) => Ok(Some(Text::of(alloc, name)?)),
        None => Ok(None),
    }
}

/// Behind the `{` of a plugin.
#[cycle(values)]
fn settings(
    alloc: Global,
    depth: usize,
    tokens: &[Lexeme],
) -> Result<(Entries, &[Lexeme]), ReadError>
    ensures { Gives result (spec.behind [] (spec.read depth symbol.Settings)) tokens.now }
{
    let mut found: ReadSettings = IndexMap::new(alloc);
    let rest = put_settings(alloc, depth, &mut found, tokens)?;
    Ok((finished_settings(alloc, found)?, rest))
}

/// Behind these settings of a plugin, to which it adds the others. No table is dropped at its faults.
#[tactic(auto, using(crate::proofs::Turns::turns))]
#[cycle(values)]
fn put_settings<'a>(
    alloc: Global,
    depth: usize,
    found: &mut ReadSettings,
    tokens: &'a [Lexeme],
) -> Result<&'a [Lexeme], ReadError>
    ensures { Fills (values_of found.new.entries) result
        (spec.settings depth (values_of found.old.entries)) tokens.now }
{
    let mut rest = tokens;
    loop {
        let (token, behind) = next(rest)?;
        match token {
            Token::CloseBrace => return Ok(behind),
            other => {
                let Some(name) = own_setting_name(alloc, other)? else {
                    return Err(refuse(rest));
                };
                let (item, after) = entry(alloc, depth, behind)?;
                put_setting(alloc, found, name, item)?;
                rest = after;
            }
        }
    }
}

/// The `{` of a plugin and its settings.
#[tactic(auto, using(crate::proofs::Turns::turns))]
fn settings_block(
    alloc: Global,
    depth: usize,
    tokens: &[Lexeme],
) -> Result<(Entries, &[Lexeme]), ReadError>
    ensures { Gives result (spec.read depth symbol.SettingsBlock) tokens.now }
{
    let (token, rest) = next(tokens)?;
    match token {
        Token::OpenBrace => {
            let depth = below(depth, tokens)?;
            settings(alloc, depth, rest)
        }
        _ => Err(refuse(tokens)),
    }
}

/// The name of a plugin, as a text of its own.
fn own_plugin_name(alloc: Global, token: &Token) -> Result<Option<Text>, AllocError>
    ensures { IfOk result (λ found. found ≡ words.plugin_name token.now) }
{
    match plugin_name(token) {
        Some(name) => Ok(Some(Text::of(alloc, name)?)),
        None => Ok(None),
    }
}

/// A plugin.
#[tactic(auto, unfolding(crate::specs::Read::plugin))]
pub fn plugin(
    alloc: Global,
    depth: usize,
    tokens: &[Lexeme],
) -> Result<(Plugin, &[Lexeme]), ReadError>
    ensures { Gives result (spec.plugin depth) tokens.now }
{
    let (token, rest) = next(tokens)?;
    let Some(name) = own_plugin_name(alloc, token)? else {
        return Err(refuse(tokens));
    };
    let (list, rest) = settings_block(alloc, depth, rest)?;
    let settings = Settings { list };
    Ok((Plugin { name, settings }, rest))
}
