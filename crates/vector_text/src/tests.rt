// Texts and what is read of them. The expected items follow from the layout by hand.
ghost use Rattle.std.specs.Prelude.{◌≤◌};

use crate::{Family, Item, Mech, TextRefusal, VectorReader, print_case};
use rbg_bytes::{Fixed, MemSink, MemSource};
use std::process::Abort;
use std::test::Fail;

// The items of a text that is read in pieces of so many bytes, as words: `case LINE COUNT`, `skip`, `end`, `fault LINE WHY`.
fn items(
    rt: &(impl Abort + AllocGlobal),
    family: Family,
    text: &[u8],
    piece: usize,
) -> Result<String, Fail> {
    let alloc = rt.alloc();
    let mut source = MemSource::new(text.to_vec(alloc)?, piece.max(1), Vec::new(alloc));
    let mut reader = VectorReader::open(alloc, family)
        .ok()
        .expect(rt, "a reader");
    let mut found = String::new(alloc);
    for _ in 0..16u32 {
        let item = match reader.next(&mut source) {
            Ok(Item::Case) => {
                format!(in alloc; "case {} {}, ", reader.case().line, reader.case().count)?
            }
            Ok(Item::Skipped) => String::from_str(alloc, "skip, ")?,
            Ok(Item::End) => {
                found.push_str("end")?;
                return Ok(found);
            }
            Err(TextRefusal::Fault { line, why }) => {
                let fault = format!(in alloc; "fault {line} {why}")?;
                found.push_str(&fault)?;
                return Ok(found);
            }
            Err(TextRefusal::ReadFault { count }) => { format!(in alloc; "read fault {count}, ")? }
        };
        found.push_str(&item)?;
    }
    Ok(found)
}

// Texts for HMAC_DRBG, each with its items behind a `>`.
const TEXTS: &str =
    ">end|COUNT = 0>fault 1 6|COUNT = x>fault 1 2|Nonce = 00>fault 1 4|Nonce = 0>fault 1 3|Other = 0>end|= 00>end|nothing>fault 1 2|# x\n** y\n \t\n*x>fault 4 2|[]\nCOUNT = 0>skip, end|[=]\n[x=]\n[x = 00>end|[x>fault 1 2|[ SHA-256 ]\nCOUNT = 0>skip, end|[AES-128 use df]\nCOUNT = 0>skip, end|[PredictionResistance = True ]>fault 1 2|[SHA-1]\n[PredictionResistance = x]>fault 2 2|[SHA-1]\nCOUNT\nCOUNT 1\nCOUNT = x\nNonce = q\nnothing\nCOUNT = 1>skip, skip, end|[SHA-256]\nNonce = 00>fault 2 4|[SHA-256]\nNonce = 0>fault 2 3|[SHA-256]\nCOUNT =>fault 2 2|[SHA-256]\nCOUNT = +1>fault 2 2|[SHA-256]\nCOUNT = 18446744073709551616>fault 2 2|[SHA-256]\nCOUNT = 0\r>fault 2 2|[SHA-256]\nCOUNT = 0>fault 2 5|[SHA-256]\nCOUNT = 0\nEntropyInput = 00>fault 2 5|[SHA-256]\nCOUNT = 0\nReturnedBits = 00>fault 2 5|[SHA-256]\nCOUNT = 0\nCOUNT = x>fault 2 5|[SHA-256]\nCOUNT = 0\n[PredictionResistance = x]>fault 2 5|[SHA-256]\nCOUNT = 0\nnothing\nCOUNT = 1>fault 3 2|[SHA-256]\nCOUNT = 0\nNonce = 0\nCOUNT = 1>fault 3 3|[SHA-256]\nCOUNT = 0\nEntropyInput\t= 00\nReturnedBits = 00>fault 2 5|[SHA-256]\nCOUNT = 0\nEntropyInput =\t00>fault 3 3|[SHA-256]\nCOUNT = 0\nEntropyInput = 00\r>fault 3 3|[SHA-256]\nCOUNT = 0\nNonce = 00\nNonce = 00>fault 4 4|[SHA-256]\nCOUNT = 0\nAdditionalInput =\nAdditionalInput =\nAdditionalInput =>fault 5 4|[SHA-256]\r\nCOUNT = 0\r\nEntropyInput = aA\r\nReturnedBits = 00>case 2 0, end| [SHA-256]\t\n\tCOUNT   =0 \n ReturnedBits=00\nEntropyInput   =  00\n\n\n>case 2 0, end|[SHA-512/224]\nCOUNT = 00018446744073709551615\nEntropyInput = 00\nReturnedBits =>case 2 18446744073709551615, end|[SHA-256]\nCOUNT = 7\nEntropyInput = 00\nReturnedBits = 00\nCOUNT = x>case 2 7, fault 5 2|[SHA-256]\nCOUNT = 7\nEntropyInput = 00\nReturnedBits = 00\nCOUNT = 8\nEntropyInput = 00\nReturnedBits = 00\n[SHA-1]\nCOUNT = 9>case 2 7, case 5 8, skip, end|[SHA-256]\nCOUNT = 0\nEntropyInput = 00\nReturnedBits = 00\n[ReturnedBitsLen = 256]\nNonce = 00>case 2 0, fault 6 4|[SHA-256]\n[PredictionResistance = True]\nCOUNT = 0\nEntropyInput = 00\nReturnedBits = 00\nEntropyInputPR = 00>fault 3 5|[SHA-256]\n[ PredictionResistance = True]\nCOUNT = 0\nEntropyInput = 00\nReturnedBits = 00\nEntropyInputPR = 00>case 3 0, end|[PredictionResistance = True]\n[SHA-256]\nCOUNT = 0\nEntropyInput = 00\nReturnedBits = 00>case 3 0, end|[SHA-256]\nCOUNT = 0\nEntropyInput = 00\nReturnedBits = 00\nEntropyInputPR = 0>fault 5 3|# a comment\r\n[SHA-1]\r\n[PredictionResistance = False]\r\nCOUNT = 0\r\nEntropyInput = 00\r\nReturnedBits = 00\r\n[SHA-256]\r\n[PredictionResistance = False]\r\n[ReturnedBitsLen = 256]\r\nCOUNT = 0\r\nEntropyInput = 00\r\nNonce = 20\r\nPersonalizationString =\r\nAdditionalInput =\r\nAdditionalInput =\r\nReturnedBits = 08\r\n>skip, case 10 0, end";

#[test]
fn texts_have_the_items_that_their_lines_say_in_any_pieces(rt: HostRuntime) -> Result<(), Fail> {
    for row in TEXTS.split('|') {
        let (text, wanted) = row.split_once('>').expect(&rt, "a text and its items");
        for piece in [1, 65_536] {
            let found = items(&rt, Family::Hmac, text.as_bytes(), piece)?;
            assert_eq!(&rt; found.as_str(), wanted);
        }
    }
    Ok(())
}

// A text with a byte that stands so often.
fn with_run(
    rt: &(impl Abort + AllocGlobal),
    front: &str,
    byte: &str,
    count: &str,
    back: &str,
) -> Result<Vec<u8>, Fail> {
    let mut text = Vec::new(rt.alloc());
    text.extend_from_slice(front.as_bytes())?;
    let count = count.parse::<u32>().ok().expect(rt, "a number");
    for _ in 0..count {
        text.extend_from_slice(byte.as_bytes())?;
    }
    text.extend_from_slice(back.as_bytes())?;
    Ok(text)
}

// Texts with a run of a byte: what stands before it, the byte and how often it stands, what stands behind it, and the items.
const RUNS: &str =
    "#>x>16383>>end|#>x>16383>\n>end|#>x>16383>\r\nCOUNT = 0>fault 2 6|#>x>16384>>fault 1 1|#>x>16384>\n>fault 1 1|#>x>16384>\r\n>fault 1 1|#>x>70000>\n>fault 1 1|[SHA-1]\nCOUNT = 0\n> >16385>\n>skip, fault 3 1|[SHA-256]\nCOUNT = 0\n[> >16384>]\n>fault 3 1|[SHA-256]\nCOUNT = 0\nEntropyInput = 00\nReturnedBits = >0>8192>\n>case 2 0, end|[SHA-256]\nCOUNT = 0\nEntropyInput = 00\nReturnedBits = >0>8194>\n>fault 4 7|[SHA-256]\nCOUNT = 0\nNonce = >0>8193>\n>fault 3 3|[SHA-256]\nCOUNT = 0\nNonce = g>0>8193>\n>fault 3 3|[SHA-256]\nNonce = >0>8194>\n>fault 2 7";

#[test]
fn lines_have_16384_bytes_and_values_4096_at_most(rt: HostRuntime) -> Result<(), Fail> {
    for row in RUNS.split('|') {
        let (front, rest) = row.split_once('>').expect(&rt, "a front");
        let (byte, rest) = rest.split_once('>').expect(&rt, "a byte");
        let (count, rest) = rest.split_once('>').expect(&rt, "a count");
        let (back, wanted) = rest.split_once('>').expect(&rt, "a back");
        let text = with_run(&rt, front, byte, count, back)?;
        let found = items(&rt, Family::Hmac, &text, 509)?;
        assert_eq!(&rt; found.as_str(), wanted);
    }
    Ok(())
}

// A text with a value for each field, none like another, under prediction resistance.
const FIELDS: &str =
    "[AES-192 no df]\n[PredictionResistance = True]\nCOUNT = 3\nReturnedBits = 0b0B\nEntropyInputPR = 08\nAdditionalInput = 06\nAdditionalInput = 07\nEntropyInputPR = 09\nAdditionalInputReseed = 05\nEntropyInputReseed = 04\nPersonalizationString = 03\nNonce = 02\nEntropyInput = 01\n";

// Whether a string has these bytes.
fn holds(string: &Fixed<4096>, bytes: &[u8]) -> bool {
    string.as_slice() == bytes
}

#[test]
fn fields_go_where_their_names_and_places_say_and_a_failed_read_loses_none(
    rt: HostRuntime,
) -> Result<(), Fail> {
    let alloc = rt.alloc();
    let mut source = MemSource::new(FIELDS.as_bytes().to_vec(alloc)?, 40, vec![in alloc; 2u64]?);
    let mut reader = VectorReader::open(alloc, Family::Ctr)
        .ok()
        .expect(&rt, "a reader");
    assert!(&rt; reader.next(&mut source) == Err(TextRefusal::ReadFault { count: 1 }));
    assert!(&rt; reader.next(&mut source) == Ok(Item::Case));
    let case = reader.case();
    assert_eq!(&rt; case.line, 3);
    assert_eq!(&rt; case.count, 3);
    assert!(&rt; case.mech == Mech::Ctr(ctr_drbg::KeyLen::K24, ctr_drbg::Mode::NoDf));
    assert!(&rt; case.pr && case.has_reseed);
    assert!(&rt; holds(&case.entropy, &[1]) && holds(&case.nonce, &[2]) && holds(&case.pers, &[3]));
    assert!(&rt; holds(&case.reseed, &[4]) && holds(&case.add_reseed, &[5]));
    assert!(&rt; holds(&case.add1, &[6]) && holds(&case.add2, &[7]));
    assert!(&rt; holds(&case.pr1, &[8]) && holds(&case.pr2, &[9]));
    assert!(&rt; holds(&case.returned, &[11, 11]));
    assert!(&rt; reader.next(&mut source) == Ok(Item::End));
    Ok(())
}

// Prints the first case of a text, where the write with this number fails.
fn printed(
    rt: &(impl Abort + AllocGlobal),
    family: &str,
    text: &str,
    write: u64,
) -> Result<String, Fail> {
    let alloc = rt.alloc();
    let family = if family == "Hmac" {
        Family::Hmac
    } else {
        Family::Ctr
    };
    let mut source = MemSource::new(text.as_bytes().to_vec(alloc)?, 65_536, Vec::new(alloc));
    let mut reader = VectorReader::open(alloc, family)
        .ok()
        .expect(rt, "a reader");
    assert!(rt; reader.next(&mut source) == Ok(Item::Case));
    let mut sink = MemSink::new(vec![in alloc; 0u8; 4_096]?, vec![in alloc; write]?);
    let done = print_case(reader.case(), &mut sink).is_ok();
    assert_eq!(rt; done, write > 15);
    let text = std::str::from_utf8(sink.written()).ok().expect(rt, "text");
    Ok(String::from_str(alloc, text)?)
}

// Texts of one case, each behind its family and before what is printed of it.
const PRINTED: &str =
    "Hmac># a comment\n[SHA-256]\n[PredictionResistance = False]\n[ReturnedBitsLen = 256]\nCOUNT = 00\nReturnedBits = 08767656D3E9669EB668D1E1F5B80D27BB1AEE12FF719EEB83E3DCE006718C16\nAdditionalInput =\nAdditionalInput=\nNonce = 202122232425262728292a2b2c2d2e2f\nEntropyInput = 000102030405060708090a0b0c0d0e0f101112131415161718191a1b1c1d1e1f>[SHA-256]\n[PredictionResistance = False]\nCOUNT = 0\nEntropyInput = 000102030405060708090a0b0c0d0e0f101112131415161718191a1b1c1d1e1f\nNonce = 202122232425262728292a2b2c2d2e2f\nPersonalizationString =\nAdditionalInput =\nAdditionalInput =\nReturnedBits = 08767656d3e9669eb668d1e1f5b80d27bb1aee12ff719eeb83e3dce006718c16\n|Hmac>[SHA-224]\n[PredictionResistance = True]\nCOUNT = 18446744073709551615\nEntropyInput = 01\nNonce = 02\nPersonalizationString = 03\nEntropyInputReseed = 04\nAdditionalInputReseed = 05\nAdditionalInput = 06\nEntropyInputPR = 08\nAdditionalInput = 07\nEntropyInputPR = 09\nReturnedBits = 0b0b\n>[SHA-224]\n[PredictionResistance = True]\nCOUNT = 18446744073709551615\nEntropyInput = 01\nNonce = 02\nPersonalizationString = 03\nEntropyInputReseed = 04\nAdditionalInputReseed = 05\nAdditionalInput = 06\nEntropyInputPR = 08\nAdditionalInput = 07\nEntropyInputPR = 09\nReturnedBits = 0b0b\n|Hmac>[SHA-384]\n[PredictionResistance = True]\nCOUNT = 18446744073709551615\nEntropyInput = 01\nNonce = 02\nPersonalizationString = 03\nEntropyInputReseed = 04\nAdditionalInputReseed = 05\nAdditionalInput = 06\nEntropyInputPR = 08\nAdditionalInput = 07\nEntropyInputPR = 09\nReturnedBits = 0b0b\n>[SHA-384]\n[PredictionResistance = True]\nCOUNT = 18446744073709551615\nEntropyInput = 01\nNonce = 02\nPersonalizationString = 03\nEntropyInputReseed = 04\nAdditionalInputReseed = 05\nAdditionalInput = 06\nEntropyInputPR = 08\nAdditionalInput = 07\nEntropyInputPR = 09\nReturnedBits = 0b0b\n|Hmac>[SHA-512]\n[PredictionResistance = True]\nCOUNT = 18446744073709551615\nEntropyInput = 01\nNonce = 02\nPersonalizationString = 03\nEntropyInputReseed = 04\nAdditionalInputReseed = 05\nAdditionalInput = 06\nEntropyInputPR = 08\nAdditionalInput = 07\nEntropyInputPR = 09\nReturnedBits = 0b0b\n>[SHA-512]\n[PredictionResistance = True]\nCOUNT = 18446744073709551615\nEntropyInput = 01\nNonce = 02\nPersonalizationString = 03\nEntropyInputReseed = 04\nAdditionalInputReseed = 05\nAdditionalInput = 06\nEntropyInputPR = 08\nAdditionalInput = 07\nEntropyInputPR = 09\nReturnedBits = 0b0b\n|Hmac>[SHA-512/224]\n[PredictionResistance = True]\nCOUNT = 18446744073709551615\nEntropyInput = 01\nNonce = 02\nPersonalizationString = 03\nEntropyInputReseed = 04\nAdditionalInputReseed = 05\nAdditionalInput = 06\nEntropyInputPR = 08\nAdditionalInput = 07\nEntropyInputPR = 09\nReturnedBits = 0b0b\n>[SHA-512/224]\n[PredictionResistance = True]\nCOUNT = 18446744073709551615\nEntropyInput = 01\nNonce = 02\nPersonalizationString = 03\nEntropyInputReseed = 04\nAdditionalInputReseed = 05\nAdditionalInput = 06\nEntropyInputPR = 08\nAdditionalInput = 07\nEntropyInputPR = 09\nReturnedBits = 0b0b\n|Hmac>[SHA-512/256]\n[PredictionResistance = True]\nCOUNT = 18446744073709551615\nEntropyInput = 01\nNonce = 02\nPersonalizationString = 03\nEntropyInputReseed = 04\nAdditionalInputReseed = 05\nAdditionalInput = 06\nEntropyInputPR = 08\nAdditionalInput = 07\nEntropyInputPR = 09\nReturnedBits = 0b0b\n>[SHA-512/256]\n[PredictionResistance = True]\nCOUNT = 18446744073709551615\nEntropyInput = 01\nNonce = 02\nPersonalizationString = 03\nEntropyInputReseed = 04\nAdditionalInputReseed = 05\nAdditionalInput = 06\nEntropyInputPR = 08\nAdditionalInput = 07\nEntropyInputPR = 09\nReturnedBits = 0b0b\n|Ctr>[AES-128 use df]\n[PredictionResistance = True]\nCOUNT = 18446744073709551615\nEntropyInput = 01\nNonce = 02\nPersonalizationString = 03\nEntropyInputReseed = 04\nAdditionalInputReseed = 05\nAdditionalInput = 06\nEntropyInputPR = 08\nAdditionalInput = 07\nEntropyInputPR = 09\nReturnedBits = 0b0b\n>[AES-128 use df]\n[PredictionResistance = True]\nCOUNT = 18446744073709551615\nEntropyInput = 01\nNonce = 02\nPersonalizationString = 03\nEntropyInputReseed = 04\nAdditionalInputReseed = 05\nAdditionalInput = 06\nEntropyInputPR = 08\nAdditionalInput = 07\nEntropyInputPR = 09\nReturnedBits = 0b0b\n|Ctr>[AES-192 use df]\n[PredictionResistance = True]\nCOUNT = 18446744073709551615\nEntropyInput = 01\nNonce = 02\nPersonalizationString = 03\nEntropyInputReseed = 04\nAdditionalInputReseed = 05\nAdditionalInput = 06\nEntropyInputPR = 08\nAdditionalInput = 07\nEntropyInputPR = 09\nReturnedBits = 0b0b\n>[AES-192 use df]\n[PredictionResistance = True]\nCOUNT = 18446744073709551615\nEntropyInput = 01\nNonce = 02\nPersonalizationString = 03\nEntropyInputReseed = 04\nAdditionalInputReseed = 05\nAdditionalInput = 06\nEntropyInputPR = 08\nAdditionalInput = 07\nEntropyInputPR = 09\nReturnedBits = 0b0b\n|Ctr>[AES-256 use df]\n[PredictionResistance = True]\nCOUNT = 18446744073709551615\nEntropyInput = 01\nNonce = 02\nPersonalizationString = 03\nEntropyInputReseed = 04\nAdditionalInputReseed = 05\nAdditionalInput = 06\nEntropyInputPR = 08\nAdditionalInput = 07\nEntropyInputPR = 09\nReturnedBits = 0b0b\n>[AES-256 use df]\n[PredictionResistance = True]\nCOUNT = 18446744073709551615\nEntropyInput = 01\nNonce = 02\nPersonalizationString = 03\nEntropyInputReseed = 04\nAdditionalInputReseed = 05\nAdditionalInput = 06\nEntropyInputPR = 08\nAdditionalInput = 07\nEntropyInputPR = 09\nReturnedBits = 0b0b\n|Ctr>[AES-128 no df]\n[PredictionResistance = True]\nCOUNT = 18446744073709551615\nEntropyInput = 01\nNonce = 02\nPersonalizationString = 03\nEntropyInputReseed = 04\nAdditionalInputReseed = 05\nAdditionalInput = 06\nEntropyInputPR = 08\nAdditionalInput = 07\nEntropyInputPR = 09\nReturnedBits = 0b0b\n>[AES-128 no df]\n[PredictionResistance = True]\nCOUNT = 18446744073709551615\nEntropyInput = 01\nNonce = 02\nPersonalizationString = 03\nEntropyInputReseed = 04\nAdditionalInputReseed = 05\nAdditionalInput = 06\nEntropyInputPR = 08\nAdditionalInput = 07\nEntropyInputPR = 09\nReturnedBits = 0b0b\n|Ctr>[AES-192 no df]\n[PredictionResistance = True]\nCOUNT = 18446744073709551615\nEntropyInput = 01\nNonce = 02\nPersonalizationString = 03\nEntropyInputReseed = 04\nAdditionalInputReseed = 05\nAdditionalInput = 06\nEntropyInputPR = 08\nAdditionalInput = 07\nEntropyInputPR = 09\nReturnedBits = 0b0b\n>[AES-192 no df]\n[PredictionResistance = True]\nCOUNT = 18446744073709551615\nEntropyInput = 01\nNonce = 02\nPersonalizationString = 03\nEntropyInputReseed = 04\nAdditionalInputReseed = 05\nAdditionalInput = 06\nEntropyInputPR = 08\nAdditionalInput = 07\nEntropyInputPR = 09\nReturnedBits = 0b0b\n|Ctr>[AES-256 no df]\n[PredictionResistance = True]\nCOUNT = 18446744073709551615\nEntropyInput = 01\nNonce = 02\nPersonalizationString = 03\nEntropyInputReseed = 04\nAdditionalInputReseed = 05\nAdditionalInput = 06\nEntropyInputPR = 08\nAdditionalInput = 07\nEntropyInputPR = 09\nReturnedBits = 0b0b\n>[AES-256 no df]\n[PredictionResistance = True]\nCOUNT = 18446744073709551615\nEntropyInput = 01\nNonce = 02\nPersonalizationString = 03\nEntropyInputReseed = 04\nAdditionalInputReseed = 05\nAdditionalInput = 06\nEntropyInputPR = 08\nAdditionalInput = 07\nEntropyInputPR = 09\nReturnedBits = 0b0b\n|Hmac>[SHA-256]\nCOUNT = 5\nEntropyInput =\nReturnedBits =\nEntropyInputReseed = 04\nEntropyInputPR = 08\n>[SHA-256]\n[PredictionResistance = False]\nCOUNT = 5\nEntropyInput =\nNonce =\nPersonalizationString =\nEntropyInputReseed = 04\nAdditionalInputReseed =\nAdditionalInput =\nAdditionalInput =\nReturnedBits =\n|Hmac>[SHA-256]\nCOUNT = 5\nEntropyInput =\nReturnedBits =\nAdditionalInputReseed = 04\n>[SHA-256]\n[PredictionResistance = False]\nCOUNT = 5\nEntropyInput =\nNonce =\nPersonalizationString =\nAdditionalInput =\nAdditionalInput =\nReturnedBits =\n";

#[test]
fn a_case_is_printed_line_by_line_and_reads_again(rt: HostRuntime) -> Result<(), Fail> {
    for row in PRINTED.split('|') {
        let (family, rest) = row.split_once('>').expect(&rt, "a family");
        let (text, wanted) = rest.split_once('>').expect(&rt, "what is printed");
        let first = printed(&rt, family, text, 16)?;
        assert_eq!(&rt; first.as_str(), wanted);
        let again = printed(&rt, family, first.as_str(), 16)?;
        assert_eq!(&rt; again.as_str(), wanted);
    }
    let found = printed(
        &rt,
        "Hmac",
        "[SHA-256]\nCOUNT = 5\nEntropyInput = 00\nReturnedBits =",
        4,
    )?;
    assert_eq!(&rt;
        found.as_str(),
        "[SHA-256]\n[PredictionResistance = False]\nCOUNT = 5\nEntropyInput = 00\n"
    );
    Ok(())
}
