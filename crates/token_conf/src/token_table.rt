//! A parsed token file.
ghost use Rattle.std.specs.Prelude.{◌≡◌, codes, option_map, option_copied};
ghost use Rattle.std.specs.FinMap.{get};
ghost use Rattle.entity_core.specs.IdTexts.{name_fault};
ghost use Rattle.toml.specs.View.{view};
ghost use Rattle.token_conf.specs.TokenFile.{Gives, ReadsFile, callers_at, callers_in, callers_of, file_of, or_fault, salt_of, text_at};

use crate::conf_fault::ConfFault;
use crate::entry::{caller_of, read_tokens};
use crate::member::string_at;
use entity_core::id_fault::IdFault;
use entity_core::salt::Salt;
use entity_core::text::Text;
use policy_core::scope::Caller;
use std::alloc::Global;
use std::marker::Model;
use toml::Value;

/// The contents of a token file: the salt of the service, and the caller of each token.
///
/// Contracts see the salt, and the map from the texts of tokens to callers.
#[derive(Debug, Drop)]
pub struct TokenTable {
    salt: Salt,
    tokens: Vec<(Text, Caller)>,
}

impl Model for TokenTable {
    ghost use Rattle.token_conf.specs.TokenFile.{TokenFile, callers_in, file_code};

    ghost Value = { TokenFile };

    ghost coded = { file_code };

    ghost view = { λ a. record { salt = a.salt; callers = callers_in a.tokens.items } };
}

/// Reads the salt of the document.
fn read_salt(alloc: Global, document: &Value) -> Result<Salt, ConfFault>
    ensures { Gives (λ salt. salt) result
        (or_fault ConfFault.Salt (text_at (codes "salt") name_fault (view document.now))) }
{
    let Some(text) = string_at(document, "salt") else {
        return Err(ConfFault::Salt);
    };
    match Salt::read(alloc, text) {
        Ok(salt) => Ok(salt),
        Err(IdFault::Memory) => Err(ConfFault::Memory),
        Err(_) => Err(ConfFault::Salt),
    }
}

/// Reads the tokens of the document's member `token`, if it has one.
fn tokens_at(alloc: Global, found: Option<&Value>) -> Result<Vec<(Text, Caller)>, ConfFault>
    ensures { Gives (λ tokens. callers_in tokens.items) result
        (callers_at (option_map (λ value. view value.now) found.entry)) }
{
    let Some(value) = found else {
        return Ok(Vec::new(alloc));
    };
    match value.as_array() {
        Some(values) => read_tokens(alloc, values.as_slice()),
        None => Err(ConfFault::Token),
    }
}

impl TokenTable {
    /// Reads a token file: a TOML document with the member `salt` and a list of tables `token`.
    ///
    /// Each table has `text` (1 to 255 visible ASCII characters), `uss` (the id of a USS) and
    /// `scopes` (a list of texts). Other members, and texts that name no scope, are ignored.
    /// Returns the first fault; after `Memory` nothing is known of the file. The time is quadratic
    /// in the number of tokens.
    #[tactic(auto, unfolding(crate::specs::TokenFile::file_of))]
    pub fn read(alloc: Global, text: &str) -> Result<TokenTable, ConfFault>
        ensures { ReadsFile (file_of text.now) result }
    {
        let document = match toml::table_from_str(alloc, text) {
            Ok(table) => Value::Table(table),
            Err(error) => {
                return Err(if error.is_memory() {
                    ConfFault::Memory
                } else {
                    ConfFault::Toml
                });
            }
        };
        let salt = read_salt(alloc, &document)?;
        let tokens = tokens_at(alloc, document.get("token"))?;
        Ok(TokenTable { salt, tokens })
    }

    /// Returns the caller of the token with exactly that text. Allocates nothing. Scans the tokens
    /// in turn.
    pub fn caller(&self, text: &str) -> Option<&Caller>
        ensures { option_copied result ≡ get (callers_of self.now) text.now }
    {
        caller_of(self.tokens.as_slice(), text)
    }

    /// Returns the salt of the service's OVNs. Allocates nothing.
    pub fn salt(&self) -> &Salt
        ensures { result.now ≡ salt_of self.now }
    {
        &self.salt
    }
}
