//! The table of tests without a test in them: what may follow each name (RFC 5228, 5).
ghost use Rattle.std.specs.Prelude.{◌≡◌, IfOk};
ghost use Rattle.sieve_syntax.specs.Capabilities.{granted_by};
ghost use Rattle.sieve_syntax.specs.Parsing.{IfParseFault, FindsFit};
ghost use Rattle.sieve_syntax.specs.declared.tree.checks.MailCheck.TheVariants as C;
ghost use Rattle.sieve_syntax.specs.Tree.{TestTree};
ghost use Rattle.sieve_syntax.specs.View.{test_view};
ghost use Rattle.sieve_syntax.specs.Table.{IsPlainTest, IsHeaderTest, IsAddressTest};
ghost use Rattle.sieve_syntax.specs.Valid.{MayCheck, MayTest};

use crate::capability::Capabilities;
use crate::error::ParseError;
use crate::extension::extension_test;
use crate::extension::subaddress::require_part;
use crate::parser::argument::Argument;
use crate::table::comparators::require_match;
use crate::table::keyword::Keyword;
use crate::table::positional::{no_arguments, read_list};
use crate::table::test_arguments::{read_address, read_header, read_size};
use crate::tree::checks::{Address, Header, MailCheck};
use crate::tree::test::Test;
use std::alloc::Global;

/// The test of this word and these arguments, if it is permitted.
pub(crate) fn plain_test(
    alloc: Global,
    keyword: Keyword,
    args: &[Argument<'_>],
    granted: &Capabilities,
) -> Result<Test, ParseError>
    ensures found { IfOk result (λ t. IsPlainTest keyword args.now (test_view t) × MayTest (granted_by granted.now) (test_view t)) }
    ensures only { IfOk result (λ t. (other : TestTree) → IsPlainTest keyword args.now other → other ≡ test_view t) }
    ensures fault { IfParseFault result ((other : TestTree) → IsPlainTest keyword args.now other → MayTest (granted_by granted.now) other → ⊥) }
{
    match keyword {
        // Syntax: true (RFC 5228, 5.10)
        Keyword::True => {
            no_arguments(args)?;
            Ok(Test::True)
        }
        // Syntax: false (RFC 5228, 5.6)
        Keyword::False => {
            no_arguments(args)?;
            Ok(Test::False)
        }
        // Syntax: size <":over" / ":under"> <limit: number> (RFC 5228, 5.9)
        Keyword::Size => Ok(Test::Check(MailCheck::Size(read_size(alloc, args)?))),
        // Syntax: exists <header-names: string-list> (RFC 5228, 5.5)
        Keyword::Exists => Ok(Test::Check(MailCheck::Exists(read_list(alloc, args)?))),
        // Syntax: header [COMPARATOR] [MATCH-TYPE] <header-names: string-list> <key-list: string-list> (RFC 5228, 5.7)
        Keyword::Header => {
            let header = permitted_header(alloc, args, granted)?;
            Ok(Test::Check(MailCheck::Header(header)))
        }
        // Syntax: address [COMPARATOR] [ADDRESS-PART] [MATCH-TYPE] <header-list: string-list> <key-list: string-list>; `:user` and `:detail`
        // require `subaddress` (RFC 5228, 5.1; RFC 5233)
        Keyword::Address => {
            let address = permitted_address(alloc, args, granted)?;
            Ok(Test::Check(MailCheck::Address(address)))
        }
        // The tests of the extensions
        _ => {
            let test = extension_test(alloc, keyword, args, granted)?;
            Ok(Test::Check(MailCheck::Extension(test)))
        }
    }
}

/// The arguments of `header`, if it is permitted.
fn permitted_header(
    alloc: Global,
    args: &[Argument<'_>],
    granted: &Capabilities,
) -> Result<Header, ParseError>
    ensures { FindsFit (IsHeaderTest args.now) (λ header. MayCheck (granted_by granted.now) (C.Header header)) result }
{
    let header = read_header(alloc, args)?;
    require_match(granted, header.comparator, header.matching)?;
    Ok(header)
}

/// The arguments of `address`, if it is permitted.
fn permitted_address(
    alloc: Global,
    args: &[Argument<'_>],
    granted: &Capabilities,
) -> Result<Address, ParseError>
    ensures { FindsFit (IsAddressTest args.now) (λ address. MayCheck (granted_by granted.now) (C.Address address)) result }
{
    let address = read_address(alloc, args)?;
    require_part(granted, address.part)?;
    require_match(granted, address.comparator, address.matching)?;
    Ok(address)
}
