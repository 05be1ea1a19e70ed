//! The token file of a command.
ghost use Rattle.std.specs.Prelude.{◌≡◌, ◌++◌, IfErr, IfOk, OnOk, codes};
ghost use Rattle.std.specs.Io.KnownBytes.{Appends};
ghost use Rattle.token_conf.specs.TokenFile.{salt_of};
ghost use Rattle.dss_command.specs.Tokens.{Passes, Tables, refusal_line};
ghost use Rattle.dss_command.specs.declared.fault.Fault.TheVariants.{Memory};

use crate::fault::{Fault, print_fault};
use entity_core::salt::Salt;
use server_base::server_log::TokenReloadFault;
use std::alloc::Global;
use std::io;
use std::io::Write;
use token_conf::conf_fault::ConfFault;
use token_conf::token_table::TokenTable;

fn pass_table(told: Result<TokenTable, ConfFault>) -> Result<TokenTable, Fault>
    ensures { Passes told result }
{
    match told {
        Ok(table) => Ok(table),
        Err(ConfFault::Memory) => Err(Fault::Memory),
        Err(fault) => Err(Fault::Tokens(fault)),
    }
}

/// Returns the table of the text of a token file.
pub fn table_of(alloc: Global, text: &str) -> Result<TokenTable, Fault>
    ensures { Tables text.now result }
{
    pass_table(TokenTable::read(alloc, text))
}

/// Returns the salt of the table's OVNs. The only possible fault is `Memory`.
pub fn salt_of(tokens: &TokenTable) -> Result<Salt, Fault>
    ensures same { IfOk result (λ salt. salt ≡ salt_of tokens.now) }
    ensures memory { IfErr result (λ fault. fault ≡ Memory) }
{
    match tokens.salt().clone() {
        Ok(salt) => Ok(salt),
        Err(_) => Err(Fault::Memory),
    }
}

/// Returns true if the lines of a check say more of the reason: the file has an error.
pub(crate) fn has_error_lines(fault: TokenReloadFault) -> bool {
    match fault {
        TokenReloadFault::Wrong(ConfFault::Memory)
        | TokenReloadFault::Unread
        | TokenReloadFault::OtherSalt => false,
        TokenReloadFault::Wrong(_) => true,
    }
}

/// Prints one line that says why a changed token file was not loaded.
pub fn print_reload_fault<E: Write>(fault: TokenReloadFault, error: &mut E) -> io::Result<()>
    ensures { OnOk result (Appends (E.contents error.old) (E.contents error.new)
        (refusal_line fault ++ codes "\n")) }
{
    match fault {
        TokenReloadFault::Unread => print_fault(&Fault::TokensUnread, error),
        TokenReloadFault::Wrong(ConfFault::Memory) => print_fault(&Fault::Memory, error),
        TokenReloadFault::Wrong(why) => print_fault(&Fault::Tokens(why), error),
        TokenReloadFault::OtherSalt => {
            writeln!(
                error,
                "dss: tokens: not reloaded: the salt changed; restart to apply it"
            )
        }
    }
}
