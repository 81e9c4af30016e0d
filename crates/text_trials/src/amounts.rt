use fx_amounts::{
    BankId, Lots, Memory, PairId, Price, PriceFault, Side, Units, base_amount, price_from,
    quote_amount,
};
use fx_text::{LineText, number, push_price};
use std::alloc::Global;
use std::test::Fail;
use trial_days::{lots, price};

#[test]
fn amounts_know_their_ranges(rt: HostRuntime) {
    let most = lots(1_000_000);
    let highest = price(1_000_000_000);
    for (what, holds) in [
        ("no price", Price::new(0) == None),
        ("a price too high", Price::new(1_000_000_001) == None),
        ("the highest price", highest.ticks() == 1_000_000_000),
        ("no lots", Lots::new(0) == None),
        ("too many lots", Lots::new(1_000_001) == None),
        ("the most lots", most.count() == 1_000_000),
        ("too many units", Units::new(1_000_000_000_000_001) == None),
        ("no units", Units::new(0).map(Units::get) == Some(0)),
        ("too many senders", BankId::new(65) == None),
        (
            "the last bank",
            BankId::new(63).map(BankId::index) == Some(63),
        ),
        ("the operator", BankId::new(64) == Some(BankId::HOST)),
        ("too many pairs", PairId::new(32) == None),
        (
            "the last pair",
            PairId::new(31).map(PairId::index) == Some(31),
        ),
        (
            "the faults' numbers",
            (PriceFault::Form.code(), PriceFault::Range.code()) == (1, 2),
        ),
    ] {
        assert!(rt; holds, "{what}");
    }
}

#[test]
fn amounts_are_compared_and_multiplied(rt: HostRuntime) {
    let (two, most) = (lots(2), lots(1_000_000));
    let (near, highest) = (price(108_420), price(1_000_000_000));
    for (what, holds) in [
        ("the other side", Side::Buy.opposite() == Side::Sell),
        ("a buy that crosses", highest.crosses(near, Side::Buy)),
        ("a sell that does not", !highest.crosses(near, Side::Sell)),
        ("a base amount", base_amount(two, 1_000_000) == 2_000_000),
        (
            "a quote amount",
            quote_amount(two, 1_000_000, near, 5) == 2_168_400,
        ),
        ("credit units", two.cost(100).get() == 200),
        (
            "the largest base amount",
            base_amount(most, 1_000_000_000) == 1_000_000_000_000_000,
        ),
        (
            "the largest quote amount",
            quote_amount(most, 1_000_000_000, highest, 0) == 1_000_000_000_000_000_000_000_000,
        ),
        (
            "the most credit units",
            most.cost(1_000_000).get() == 1_000_000_000_000,
        ),
    ] {
        assert!(rt; holds, "{what}");
    }
}

/// Texts of prices with so many decimals.
const PRICES: [(&[u8], u8, Result<u32, PriceFault>); 16] = [
    (b"1.08420", 5, Ok(108_420)),
    (b"0.00001", 5, Ok(1)),
    (b"10000.00000", 5, Ok(1_000_000_000)),
    (b"1.0842", 5, Err(PriceFault::Form)),
    (b"01.08420", 5, Err(PriceFault::Form)),
    (b".08420", 5, Err(PriceFault::Form)),
    (b"1,08420", 5, Err(PriceFault::Form)),
    (b"0.00000", 5, Err(PriceFault::Range)),
    (b"10000.00001", 5, Err(PriceFault::Range)),
    (b"7", 0, Ok(7)),
    (b"7.", 0, Err(PriceFault::Form)),
    (b"+7", 0, Err(PriceFault::Form)),
    (b"", 0, Err(PriceFault::Form)),
    (&[b'0'; 64], 0, Err(PriceFault::Form)),
    (&[b'9'; 80], 0, Err(PriceFault::Range)),
    (b"149.250", 3, Ok(149_250)),
];

/// Texts of numbers from a least to a most.
const NUMBERS: [(&[u8], u64, u64, Option<u64>); 11] = [
    (b"0", 0, 9, Some(0)),
    (b"1000000", 1, 1_000_000, Some(1_000_000)),
    (b"18446744073709551615", 0, u64::MAX, Some(u64::MAX)),
    (b"18446744073709551616", 0, u64::MAX, None),
    (b"", 0, 9, None),
    (b"05", 0, 9, None),
    (b"00", 0, 9, None),
    (b"+5", 0, 9, None),
    (b"5 ", 0, 9, None),
    (b"10", 0, 9, None),
    (b"4", 5, 9, None),
];

/// The ticks of a price's text.
fn ticks_of(text: &[u8], decimals: u8) -> Result<u32, PriceFault> {
    Ok(price_from(text, decimals)?.ticks())
}

#[test]
fn prices_and_numbers_are_read(rt: HostRuntime) {
    for (at, (text, decimals, want)) in PRICES.iter().enumerate() {
        assert!(rt; ticks_of(text, *decimals) == *want, "price {at}");
    }
    for (at, (text, least, most, want)) in NUMBERS.iter().enumerate() {
        assert!(rt; number(text, *least, *most) == *want, "number {at}");
    }
}

/// Ticks with so many decimals, and how they are spelled.
const SPELLED: [(u32, u8, &[u8]); 9] = [
    (108_420, 5, b"1.08420"),
    (149_250, 3, b"149.250"),
    (1, 5, b"0.00001"),
    (1_000_000_000, 5, b"10000.00000"),
    (1_000_000, 6, b"1.000000"),
    (7, 0, b"7"),
    (1_000_000_000, 9, b"1.000000000"),
    (1_000_000_000, 10, b"0.1000000000"),
    (108_420, 13, b"0.0000000108420"),
];

/// The one spelling of a price.
fn spelled(alloc: Global, ticks: u32, decimals: u8) -> Result<Vec<u8>, Memory> {
    let mut text = Vec::new(alloc);
    if let Some(price) = Price::new(ticks) {
        push_price(price, decimals, &mut text)?;
    }
    Ok(text)
}

/// The one spelling of the least and the largest numbers.
fn largest() -> LineText {
    let mut text = LineText::new();
    text.push_wide(0);
    text.push_wide(u128::MAX);
    text.push_signed_field(i128::MIN);
    text.push_signed_field(7);
    text
}

#[test]
fn what_is_pushed_is_the_one_spelling(rt: HostRuntime) -> Result<(), Fail> {
    for (at, (ticks, decimals, want)) in SPELLED.iter().enumerate() {
        let text = spelled(rt.alloc(), *ticks, *decimals)?;
        assert!(rt; text.as_slice() == *want, "price {at}");
    }
    let want =
        b"0340282366920938463463374607431768211455 -170141183460469231731687303715884105728 7";
    assert!(rt; largest().as_slice() == want.as_slice());
    Ok(())
}
