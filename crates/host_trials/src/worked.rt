//! Worked sessions, played at each host.
use crate::alike::told_by_all;
use fx_amounts::Memory;
use fx_rules::{Entry, Session};
use std::alloc::{AllocGlobal, Global};
use std::sync::Wait;
use std::test::Fail;
use trial_days::{day_of, tell};

/// A session of ALFA, BETA and GAMA with EUR/USD, of which a lot uses 100 credit units, and GBP/USD, of which a lot uses 70.
#[derive(Clone, Copy)]
struct Worked {
    name: &'static str,
    opening: Opening,
    /// Each command, and what has to come of it.
    rows: &'static [(&'static str, &'static str)],
    /// How many orders rest at the end.
    resting: u64,
}

/// The credit with which a session opens.
#[derive(Clone, Copy)]
enum Opening {
    /// In version 1, ALFA's lines with BETA and with GAMA. BETA and GAMA have none with each other.
    Lines(u64, u64),
    /// In version 2, the lines LINE and TOTAL of the header.
    Text(&'static str),
}

use Opening::{Lines, Text};

const HEAD: &str = "BANK ALFA
BANK BETA
BANK GAMA
PAIR EUR/USD 5 1000000 100
PAIR GBP/USD 5 1000000 70
";

const WORKED: [Worked; 25] = [
    Worked {
        name: "fills at the maker's price",
        opening: Lines(1000, 0),
        rows: &[
            ("BETA SELL EUR/USD 1.08420 2 DAY", "ORDERED 0 2"),
            (
                "ALFA BUY EUR/USD 1.08425 3 DAY",
                "ORDERED 2 1, ALFA 1 BUY EUR/USD 2 1.08420 BETA 1",
            ),
            // The rest of one lot stands at its own limit, and is taken there.
            (
                "BETA SELL EUR/USD 1.08400 5 DAY",
                "ORDERED 1 4, BETA 2 SELL EUR/USD 1 1.08425 ALFA 1",
            ),
        ],
        resting: 1,
    },
    Worked {
        name: "a line cuts a fill",
        opening: Lines(250, 0),
        rows: &[
            ("BETA SELL EUR/USD 1.08420 3 DAY", "ORDERED 0 3"),
            // 250 units allow two lots of 100.
            (
                "ALFA BUY EUR/USD 1.08420 3 DAY",
                "ORDERED 2 1, ALFA 1 BUY EUR/USD 2 1.08420 BETA 1",
            ),
            // Of the line 50 are left: no lot of either is in the other's reach.
            ("ALFA BUY EUR/USD 1.08430 1 DAY", "ORDERED 0 1"),
            ("BETA SELL EUR/USD 1.08410 1 DAY", "ORDERED 0 1"),
        ],
        resting: 4,
    },
    Worked {
        name: "a better price out of reach is passed over",
        opening: Lines(1000, 0),
        rows: &[
            ("GAMA SELL EUR/USD 1.08400 1 DAY", "ORDERED 0 1"),
            ("BETA SELL EUR/USD 1.08420 1 DAY", "ORDERED 0 1"),
            (
                "ALFA BUY EUR/USD 1.08430 1 DAY",
                "ORDERED 1 0, ALFA 1 BUY EUR/USD 1 1.08420 BETA 1",
            ),
        ],
        resting: 1,
    },
    Worked {
        name: "one of two makers at a price is capped",
        opening: Lines(100, 1000),
        rows: &[
            ("BETA SELL EUR/USD 1.08420 2 DAY", "ORDERED 0 2"),
            ("GAMA SELL EUR/USD 1.08420 2 DAY", "ORDERED 0 2"),
            (
                "ALFA BUY EUR/USD 1.08420 3 DAY",
                "ORDERED 3 0, ALFA 1 BUY EUR/USD 1 1.08420 BETA 1, ALFA 1 BUY EUR/USD 2 1.08420 GAMA 1",
            ),
        ],
        resting: 1,
    },
    Worked {
        name: "own orders rest crossed",
        opening: Lines(1000, 1000),
        rows: &[
            ("ALFA SELL EUR/USD 1.08400 1 DAY", "ORDERED 0 1"),
            ("ALFA BUY EUR/USD 1.08450 1 DAY", "ORDERED 0 1"),
            // The other bank takes either.
            (
                "BETA SELL EUR/USD 1.08410 2 DAY",
                "ORDERED 1 1, BETA 1 SELL EUR/USD 1 1.08450 ALFA 2",
            ),
            (
                "BETA BUY EUR/USD 1.08405 1 DAY",
                "ORDERED 1 0, BETA 2 BUY EUR/USD 1 1.08400 ALFA 1",
            ),
        ],
        resting: 1,
    },
    Worked {
        name: "the best prices go first, and equal ones by arrival",
        opening: Lines(1000, 1000),
        rows: &[
            ("GAMA SELL EUR/USD 1.08430 1 DAY", "ORDERED 0 1"),
            ("BETA SELL EUR/USD 1.08420 2 DAY", "ORDERED 0 2"),
            ("GAMA SELL EUR/USD 1.08420 1 DAY", "ORDERED 0 1"),
            ("BETA SELL EUR/USD 1.08410 1 DAY", "ORDERED 0 1"),
            ("BETA SELL EUR/USD 1.08440 1 DAY", "ORDERED 0 1"),
            (
                "ALFA BUY EUR/USD 1.08430 6 DAY",
                "ORDERED 5 1, ALFA 1 BUY EUR/USD 1 1.08410 BETA 2, ALFA 1 BUY EUR/USD 2 1.08420 BETA 1, \
                 ALFA 1 BUY EUR/USD 1 1.08420 GAMA 2, ALFA 1 BUY EUR/USD 1 1.08430 GAMA 1",
            ),
            // A sell looks for the highest price.
            ("ALFA BUY EUR/USD 1.08420 1 DAY", "ORDERED 0 1"),
            (
                "GAMA SELL EUR/USD 1.08400 3 DAY",
                "ORDERED 2 1, GAMA 3 SELL EUR/USD 1 1.08430 ALFA 1, GAMA 3 SELL EUR/USD 1 1.08420 ALFA 2",
            ),
        ],
        resting: 2,
    },
    Worked {
        name: "a bad line counts as a command",
        opening: Lines(1000, 0),
        rows: &[
            ("BETA SELL EUR/USD 1.08420 0 DAY", "BAD 6"),
            ("BETA SELL EUR/USD 1.08420 1 DAY", "ORDERED 0 1"),
            (
                "ALFA BUY EUR/USD 1.08420 1 DAY",
                "ORDERED 1 0, ALFA 1 BUY EUR/USD 1 1.08420 BETA 2",
            ),
        ],
        resting: 0,
    },
    Worked {
        name: "an order for now leaves no rest",
        opening: Lines(200, 1000),
        rows: &[
            ("BETA SELL EUR/USD 1.08420 5 DAY", "ORDERED 0 5"),
            // 200 units allow two lots, so three are not to be had at once, and nothing changes.
            ("ALFA BUY EUR/USD 1.08420 3 FOK", "KILLED"),
            (
                "ALFA BUY EUR/USD 1.08420 1 FOK",
                "ORDERED 1 0, ALFA 2 BUY EUR/USD 1 1.08420 BETA 1",
            ),
            (
                "ALFA BUY EUR/USD 1.08420 3 IOC",
                "ORDERED 1 0, ALFA 3 BUY EUR/USD 1 1.08420 BETA 1",
            ),
            // What the last one left does not rest.
            ("GAMA SELL EUR/USD 1.08420 1 DAY", "ORDERED 0 1"),
            (
                "ALFA BUY EUR/USD 1.08420 1 DAY",
                "ORDERED 1 0, ALFA 4 BUY EUR/USD 1 1.08420 GAMA 1",
            ),
        ],
        resting: 1,
    },
    Worked {
        name: "a raise makes a fill once both sides are up",
        opening: Lines(250, 0),
        rows: &[
            ("BETA SELL EUR/USD 1.08420 3 DAY", "ORDERED 0 3"),
            (
                "ALFA BUY EUR/USD 1.08420 3 DAY",
                "ORDERED 2 1, ALFA 1 BUY EUR/USD 2 1.08420 BETA 1",
            ),
            // The lesser limit is still 250, of which 200 are used.
            ("ALFA LINE BETA 400", "LIMIT 400"),
            (
                "BETA LINE ALFA 400",
                "LIMIT 400, ALFA 1 BUY EUR/USD 1 1.08420 BETA 1",
            ),
            ("ALFA SHOW BETA", "SHOWN 400 300 100"),
        ],
        resting: 0,
    },
    Worked {
        name: "in a raise the later order takes at the earlier one's price",
        opening: Lines(0, 0),
        rows: &[
            ("GAMA BUY GBP/USD 1.27010 1 DAY", "ORDERED 0 1"),
            ("BETA SELL EUR/USD 1.08430 1 DAY", "ORDERED 0 1"),
            ("ALFA BUY EUR/USD 1.08450 2 DAY", "ORDERED 0 2"),
            ("BETA SELL EUR/USD 1.08410 1 DAY", "ORDERED 0 1"),
            ("BETA SELL GBP/USD 1.27000 1 DAY", "ORDERED 0 1"),
            ("ALFA BUY GBP/USD 1.27020 1 DAY", "ORDERED 0 1"),
            ("ALFA LINE BETA 1000", "LIMIT 1000"),
            (
                "BETA LINE ALFA 1000",
                "LIMIT 1000, ALFA 1 BUY EUR/USD 1 1.08430 BETA 1, BETA 2 SELL EUR/USD 1 1.08450 ALFA 1, \
                 ALFA 2 BUY GBP/USD 1 1.27000 BETA 3",
            ),
            ("BETA SHOW ALFA", "SHOWN 1000 270 730"),
        ],
        resting: 1,
    },
    Worked {
        name: "a raise that pays for one lot fills in the first pair",
        opening: Lines(0, 0),
        rows: &[
            ("BETA SELL GBP/USD 1.27000 2 DAY", "ORDERED 0 2"),
            ("BETA SELL EUR/USD 1.08420 2 DAY", "ORDERED 0 2"),
            ("ALFA BUY GBP/USD 1.27000 2 DAY", "ORDERED 0 2"),
            ("ALFA BUY EUR/USD 1.08420 2 DAY", "ORDERED 0 2"),
            ("ALFA LINE BETA 170", "LIMIT 170"),
            (
                "BETA LINE ALFA 180",
                "LIMIT 180, ALFA 2 BUY EUR/USD 1 1.08420 BETA 2, ALFA 1 BUY GBP/USD 1 1.27000 BETA 1",
            ),
            ("BETA SHOW ALFA", "SHOWN 180 170 0"),
        ],
        resting: 4,
    },
    Worked {
        name: "in a raise orders of other banks are left alone",
        opening: Lines(0, 0),
        rows: &[
            ("GAMA SELL EUR/USD 1.08400 5 DAY", "ORDERED 0 5"),
            ("BETA SELL EUR/USD 1.08430 1 DAY", "ORDERED 0 1"),
            ("BETA SELL EUR/USD 1.08420 3 DAY", "ORDERED 0 3"),
            ("GAMA BUY EUR/USD 1.08460 5 DAY", "ORDERED 0 5"),
            ("ALFA BUY EUR/USD 1.08450 2 DAY", "ORDERED 0 2"),
            ("ALFA SELL EUR/USD 1.08410 4 DAY", "ORDERED 0 4"),
            ("BETA LINE ALFA 1000", "LIMIT 1000"),
            // 99 units pay for no lot.
            ("ALFA LINE BETA 99", "LIMIT 99"),
            (
                "ALFA LINE BETA 1000",
                "LIMIT 1000, ALFA 1 BUY EUR/USD 2 1.08420 BETA 2",
            ),
        ],
        resting: 5,
    },
    Worked {
        name: "orders of two pairs use one line",
        opening: Lines(170, 0),
        rows: &[
            ("BETA SELL EUR/USD 1.08420 2 DAY", "ORDERED 0 2"),
            ("BETA SELL GBP/USD 1.27000 2 DAY", "ORDERED 0 2"),
            (
                "ALFA BUY EUR/USD 1.08420 2 IOC",
                "ORDERED 1 0, ALFA 1 BUY EUR/USD 1 1.08420 BETA 1",
            ),
            ("ALFA BUY EUR/USD 1.08420 1 IOC", "ORDERED 0 0"),
            (
                "ALFA BUY GBP/USD 1.27000 2 IOC",
                "ORDERED 1 0, ALFA 3 BUY GBP/USD 1 1.27000 BETA 2",
            ),
            ("ALFA SHOW BETA", "SHOWN 170 170 0"),
        ],
        resting: 2,
    },
    Worked {
        name: "a limit is never below what is used",
        opening: Lines(1000, 0),
        rows: &[
            ("BETA SELL EUR/USD 1.08420 2 DAY", "ORDERED 0 2"),
            (
                "ALFA BUY EUR/USD 1.08425 3 DAY",
                "ORDERED 2 1, ALFA 1 BUY EUR/USD 2 1.08420 BETA 1",
            ),
            ("ALFA LINE BETA 50", "LIMIT 200"),
            ("ALFA SHOW BETA", "SHOWN 200 200 0"),
        ],
        resting: 1,
    },
    Worked {
        name: "a killed order leaves all to the next",
        opening: Lines(200, 0),
        rows: &[
            ("BETA SELL EUR/USD 1.08420 5 DAY", "ORDERED 0 5"),
            ("ALFA BUY EUR/USD 1.08420 3 FOK", "KILLED"),
            (
                "ALFA BUY EUR/USD 1.08420 3 IOC",
                "ORDERED 2 0, ALFA 2 BUY EUR/USD 2 1.08420 BETA 1",
            ),
            ("ALFA CANCEL EUR/USD 2", "NOTHING"),
        ],
        resting: 1,
    },
    Worked {
        name: "a reduced order keeps its place",
        opening: Lines(1000, 1000),
        rows: &[
            ("BETA SELL EUR/USD 1.08420 2 DAY", "ORDERED 0 2"),
            ("GAMA SELL EUR/USD 1.08420 2 DAY", "ORDERED 0 2"),
            ("BETA REDUCE EUR/USD 1 2", "NOTLESS 2"),
            ("BETA REDUCE EUR/USD 1 1", "REDUCED 1"),
            ("ALFA REDUCE EUR/USD 1 1", "NOTHING"),
            (
                "ALFA BUY EUR/USD 1.08420 2 IOC",
                "ORDERED 2 0, ALFA 2 BUY EUR/USD 1 1.08420 BETA 1, ALFA 2 BUY EUR/USD 1 1.08420 GAMA 1",
            ),
        ],
        resting: 1,
    },
    Worked {
        name: "a cancel takes only the sender's order in its pair",
        opening: Lines(1000, 0),
        rows: &[
            ("BETA SELL EUR/USD 1.08420 1 DAY", "ORDERED 0 1"),
            (
                "ALFA BUY EUR/USD 1.08420 1 DAY",
                "ORDERED 1 0, ALFA 1 BUY EUR/USD 1 1.08420 BETA 1",
            ),
            ("ALFA BUY EUR/USD 1.08000 1 DAY", "ORDERED 0 1"),
            // Filled, another bank's, and in another pair.
            ("ALFA CANCEL EUR/USD 1", "NOTHING"),
            ("BETA CANCEL EUR/USD 2", "NOTHING"),
            ("ALFA CANCEL GBP/USD 2", "NOTHING"),
            ("ALFA CANCEL EUR/USD 2", "CANCELLED 1"),
            ("ALFA CANCEL EUR/USD 2", "NOTHING"),
        ],
        resting: 0,
    },
    Worked {
        name: "a pull counts the sender's orders in the pair",
        opening: Lines(1000, 0),
        rows: &[
            ("ALFA BUY EUR/USD 1.08000 5 DAY", "ORDERED 0 5"),
            ("ALFA BUY GBP/USD 1.27000 1 DAY", "ORDERED 0 1"),
            ("ALFA SELL EUR/USD 1.08500 3 DAY", "ORDERED 0 3"),
            ("BETA BUY EUR/USD 1.08000 1 DAY", "ORDERED 0 1"),
            ("ALFA PULL EUR/USD", "PULLED 2"),
            ("ALFA PULL EUR/USD", "PULLED 0"),
        ],
        resting: 2,
    },
    Worked {
        name: "a local book has ten prices and what the lines allow",
        opening: Lines(300, 10000),
        rows: &[
            ("BETA SELL EUR/USD 1.08400 5 DAY", "ORDERED 0 5"),
            ("GAMA SELL EUR/USD 1.08400 1 DAY", "ORDERED 0 1"),
            ("BETA SELL EUR/USD 1.08405 2 DAY", "ORDERED 0 2"),
            ("GAMA SELL EUR/USD 1.08401 1 DAY", "ORDERED 0 1"),
            ("GAMA SELL EUR/USD 1.08402 1 DAY", "ORDERED 0 1"),
            ("GAMA SELL EUR/USD 1.08403 1 DAY", "ORDERED 0 1"),
            ("GAMA SELL EUR/USD 1.08404 1 DAY", "ORDERED 0 1"),
            ("GAMA SELL EUR/USD 1.08405 1 DAY", "ORDERED 0 1"),
            ("GAMA SELL EUR/USD 1.08406 1 DAY", "ORDERED 0 1"),
            ("GAMA SELL EUR/USD 1.08407 1 DAY", "ORDERED 0 1"),
            ("GAMA SELL EUR/USD 1.08408 1 DAY", "ORDERED 0 1"),
            ("GAMA SELL EUR/USD 1.08409 1 DAY", "ORDERED 0 1"),
            ("GAMA SELL EUR/USD 1.08410 1 DAY", "ORDERED 0 1"),
            ("GAMA SELL EUR/USD 1.08411 1 DAY", "ORDERED 0 1"),
            // The tenth level has a second fill behind its first.
            ("GAMA SELL EUR/USD 1.08409 2 DAY", "ORDERED 0 2"),
            (
                "ALFA BOOK EUR/USD",
                "BOOK BIDS ASKS 1.08400 4 1.08401 1 1.08402 1 1.08403 1 1.08404 1 1.08405 1 1.08406 1 1.08407 1 1.08408 1 1.08409 3",
            ),
            (
                "ALFA BUY EUR/USD 1.08409 15 IOC",
                "ORDERED 15 0, ALFA 2 BUY EUR/USD 3 1.08400 BETA 1, ALFA 2 BUY EUR/USD 1 1.08400 GAMA 1, \
                 ALFA 2 BUY EUR/USD 1 1.08401 GAMA 2, ALFA 2 BUY EUR/USD 1 1.08402 GAMA 3, \
                 ALFA 2 BUY EUR/USD 1 1.08403 GAMA 4, ALFA 2 BUY EUR/USD 1 1.08404 GAMA 5, \
                 ALFA 2 BUY EUR/USD 1 1.08405 GAMA 6, ALFA 2 BUY EUR/USD 1 1.08406 GAMA 7, \
                 ALFA 2 BUY EUR/USD 1 1.08407 GAMA 8, ALFA 2 BUY EUR/USD 1 1.08408 GAMA 9, \
                 ALFA 2 BUY EUR/USD 1 1.08409 GAMA 10, ALFA 2 BUY EUR/USD 2 1.08409 GAMA 13",
            ),
            ("ALFA BOOK EUR/USD", "BOOK BIDS ASKS 1.08410 1 1.08411 1"),
        ],
        resting: 4,
    },
    Worked {
        name: "own orders are not in the own book",
        opening: Lines(1000, 1000),
        rows: &[
            ("ALFA SELL EUR/USD 1.08400 1 DAY", "ORDERED 0 1"),
            ("ALFA BUY EUR/USD 1.08450 1 DAY", "ORDERED 0 1"),
            ("ALFA BOOK EUR/USD", "BOOK BIDS ASKS"),
            ("BETA BOOK EUR/USD", "BOOK BIDS 1.08450 1 ASKS 1.08400 1"),
        ],
        resting: 2,
    },
    Worked {
        name: "an order out of reach is in no local book",
        opening: Lines(300, 0),
        rows: &[
            ("ALFA BUY EUR/USD 1.08425 1 DAY", "ORDERED 0 1"),
            ("GAMA BUY EUR/USD 1.08430 1 DAY", "ORDERED 0 1"),
            ("BETA SELL EUR/USD 1.08440 2 DAY", "ORDERED 0 2"),
            ("ALFA BUY EUR/USD 1.08420 4 DAY", "ORDERED 0 4"),
            ("BETA BOOK EUR/USD", "BOOK BIDS 1.08425 1 1.08420 2 ASKS"),
        ],
        resting: 4,
    },
    Worked {
        name: "a local book has more lots than an order may have",
        opening: Lines(250_000_000, 0),
        rows: &[
            ("BETA SELL EUR/USD 1.08420 1000000 DAY", "ORDERED 0 1000000"),
            ("BETA SELL EUR/USD 1.08420 1000000 DAY", "ORDERED 0 1000000"),
            ("BETA SELL EUR/USD 1.08430 1000000 DAY", "ORDERED 0 1000000"),
            // The line pays for 2,500,000 lots.
            (
                "ALFA BOOK EUR/USD",
                "BOOK BIDS ASKS 1.08420 2000000 1.08430 500000",
            ),
            (
                "ALFA BUY EUR/USD 1.08430 1000000 DAY",
                "ORDERED 1000000 0, ALFA 2 BUY EUR/USD 1000000 1.08420 BETA 1",
            ),
            (
                "ALFA BOOK EUR/USD",
                "BOOK BIDS ASKS 1.08420 1000000 1.08430 500000",
            ),
        ],
        resting: 2,
    },
    Worked {
        name: "a total caps a taker over all makers",
        opening: Text(
            "LINE ALFA BETA 1000
LINE BETA ALFA 1000
LINE ALFA GAMA 1000
LINE GAMA ALFA 1000
LINE BETA GAMA 1000
LINE GAMA BETA 1000
TOTAL ALFA 350
",
        ),
        rows: &[
            ("BETA SELL EUR/USD 1.08420 2 DAY", "ORDERED 0 2"),
            ("GAMA SELL EUR/USD 1.08430 2 DAY", "ORDERED 0 2"),
            // 350 units pay for three lots in all.
            ("ALFA BOOK EUR/USD", "BOOK BIDS ASKS 1.08420 2 1.08430 1"),
            ("ALFA BUY EUR/USD 1.08430 4 FOK", "KILLED"),
            (
                "ALFA BUY EUR/USD 1.08430 4 DAY",
                "ORDERED 3 1, ALFA 3 BUY EUR/USD 2 1.08420 BETA 1, ALFA 3 BUY EUR/USD 1 1.08430 GAMA 1",
            ),
            ("ALFA SHOW GAMA", "SHOWN 1000 100 50"),
            ("BETA SHOW ALFA", "SHOWN 1000 200 50"),
            // A total is never below what is spent.
            ("ALFA TOTAL 250", "TOTAL 300"),
            (
                "ALFA TOTAL 450",
                "TOTAL 450, ALFA 3 BUY EUR/USD 1 1.08430 GAMA 1",
            ),
            ("GAMA TOTAL 0", "TOTAL 200"),
            ("BETA SHOW GAMA", "SHOWN 1000 0 0"),
        ],
        resting: 0,
    },
    Worked {
        name: "units given back open the line with a third bank",
        opening: Text(
            "LINE ALFA BETA 300
LINE BETA ALFA 300
LINE ALFA GAMA 1000
LINE GAMA ALFA 1000
TOTAL ALFA 200
",
        ),
        rows: &[
            ("BETA SELL EUR/USD 1.08400 2 DAY", "ORDERED 0 2"),
            (
                "ALFA BUY EUR/USD 1.08400 2 DAY",
                "ORDERED 2 0, ALFA 1 BUY EUR/USD 2 1.08400 BETA 1",
            ),
            ("ALFA BUY EUR/USD 1.08450 1 DAY", "ORDERED 0 1"),
            ("GAMA SELL EUR/USD 1.08440 1 DAY", "ORDERED 0 1"),
            (
                "HOST SETTLE BETA ALFA 150",
                "SETTLED 150, GAMA 1 SELL EUR/USD 1 1.08450 ALFA 2",
            ),
            // No more is given back than is used.
            ("HOST SETTLE ALFA BETA 1000", "SETTLED 50"),
            ("HOST SETTLE ALFA ALFA 5", "BAD 7"),
            ("HOST SETTLE ALFA BETA 0", "BAD 12"),
            ("HOST PULL EUR/USD", "BAD 1"),
            ("ALFA SETTLE ALFA BETA 5", "BAD 1"),
            ("ALFA SHOW BETA", "SHOWN 300 0 100"),
        ],
        resting: 0,
    },
    Worked {
        name: "a total caps its bank's orders where they rest",
        opening: Text(
            "LINE ALFA BETA 1000
LINE BETA ALFA 1000
LINE BETA GAMA 1000
LINE GAMA BETA 1000
TOTAL GAMA 0
",
        ),
        rows: &[
            ("BETA SELL EUR/USD 1.08420 3 DAY", "ORDERED 0 3"),
            ("BETA SELL GBP/USD 1.27000 3 DAY", "ORDERED 0 3"),
            ("BETA TOTAL 290", "TOTAL 290"),
            ("ALFA BOOK EUR/USD", "BOOK BIDS ASKS 1.08420 2"),
            (
                "ALFA BUY EUR/USD 1.08420 2 IOC",
                "ORDERED 2 0, ALFA 2 BUY EUR/USD 2 1.08420 BETA 1",
            ),
            // 90 units are left, and pay for a lot of GBP/USD alone.
            ("ALFA BOOK EUR/USD", "BOOK BIDS ASKS"),
            ("ALFA BOOK GBP/USD", "BOOK BIDS ASKS 1.27000 1"),
            (
                "ALFA BUY GBP/USD 1.27000 3 DAY",
                "ORDERED 1 2, ALFA 5 BUY GBP/USD 1 1.27000 BETA 2",
            ),
            ("GAMA BUY EUR/USD 1.08420 1 DAY", "ORDERED 0 1"),
            ("GAMA TOTAL 500", "TOTAL 500"),
            (
                "BETA TOTAL 460",
                "TOTAL 460, GAMA 1 BUY EUR/USD 1 1.08420 BETA 1, ALFA 5 BUY GBP/USD 1 1.27000 BETA 2",
            ),
            (
                "HOST SETTLE ALFA BETA 70",
                "SETTLED 70, ALFA 5 BUY GBP/USD 1 1.27000 BETA 2",
            ),
        ],
        resting: 0,
    },
];

/// Orders of two banks that have no line: three of each side, which cross.
const CROSSED: &str = "BETA SELL EUR/USD 1.08420 1 DAY
ALFA BUY EUR/USD 1.08450 1 DAY
ALFA BUY EUR/USD 1.08440 1 DAY
BETA SELL EUR/USD 1.08410 1 DAY
BETA SELL EUR/USD 1.08430 1 DAY
ALFA BUY EUR/USD 1.08460 1 DAY
";

/// A session in which two banks rest three hundred orders each that cross, and then open the line between them.
fn crossed_text(alloc: Global) -> Result<String, Memory> {
    let mut text = format!(in alloc; "FXBOOK 1\n{HEAD}START\n")?;
    for _ in 0..100 {
        text.push_str(CROSSED)?;
    }
    text.push_str("ALFA LINE BETA 1000000\nBETA LINE ALFA 1000000\n")?;
    Ok(text)
}

/// A header of this opening, up to its START.
fn head_of(alloc: Global, opening: Opening) -> Result<String, Memory> {
    let text = match opening {
        Lines(beta, gama) => format!(in alloc;
            "FXBOOK 1\n{HEAD}LINE ALFA BETA {beta}\nLINE BETA ALFA {beta}\nLINE ALFA GAMA {gama}\nLINE GAMA ALFA {gama}\nSTART\n"
        )?,
        Text(lines) => format!(in alloc; "FXBOOK 2\n{HEAD}{lines}START\n")?,
    };
    Ok(text)
}

/// The text of a worked session.
fn text_of(alloc: Global, worked: &Worked) -> Result<String, Memory> {
    let mut text = head_of(alloc, worked.opening)?;
    for (command, _) in worked.rows {
        text.push_str(command)?;
        text.push('\n')?;
    }
    Ok(text)
}

/// The first row of which another thing came than it says, counted from 1; `None` where there is none. What is told is a copy
/// of each outcome.
fn first_wrong(
    alloc: Global,
    session: &Session,
    entries: &[Entry],
    worked: &Worked,
) -> Result<Option<usize>, Memory> {
    let mut text = Vec::new(alloc);
    let mut row = 0usize;
    for (entry, (_, want)) in entries.iter().zip(worked.rows) {
        row = row.saturating_add(1);
        text.clear();
        tell(session, &entry.outcome.copy()?, &mut text)?;
        if text.as_slice() != want.as_bytes()
            || entry.number as usize != sent_by(entry, entries, row)
        {
            return Ok(Some(row));
        }
    }
    Ok((entries.len() != worked.rows.len()).then_some(row))
}

/// How many of the first so many entries are of the entry's bank.
fn sent_by(entry: &Entry, entries: &[Entry], count: usize) -> usize {
    entries
        .iter()
        .take(count)
        .filter(|other| other.bank == entry.bank)
        .count()
}

/// The first row of which another thing came, counted from 1; 0 where only the number of orders that rest at the end is another.
/// The hosts tell alike.
fn played_wrong<R: AllocGlobal + Wait>(rt: &R, worked: &Worked) -> Result<Option<usize>, Fail> {
    let alloc = rt.alloc();
    let text = text_of(alloc, worked)?;
    let (session, sent) = day_of(alloc, text.as_bytes())?;
    let (entries, resting) = told_by_all(rt, &session, &sent)?;
    if resting != worked.resting {
        return Ok(Some(0));
    }
    Ok(first_wrong(alloc, &session, &entries, worked)?)
}

#[test]
fn worked_sessions_are_told_so_by_each_host(rt: HostRuntime) -> Result<(), Fail> {
    for worked in WORKED {
        let wrong = played_wrong(&rt, &worked)?;
        assert!(rt; wrong == None, "{}: row {wrong:?}", worked.name);
    }
    Ok(())
}

/// The fills of a day's last command, and how many orders rest behind it.
fn last_fills<R: AllocGlobal + Wait>(rt: &R, text: &[u8]) -> Result<(usize, u64), Fail> {
    let (session, sent) = day_of(rt.alloc(), text)?;
    let (entries, resting) = told_by_all(rt, &session, &sent)?;
    let fills = match entries.last() {
        Some(entry) => entry.outcome.fills().len(),
        None => 0,
    };
    Ok((fills, resting))
}

#[test]
fn a_raise_makes_three_hundred_fills(rt: HostRuntime) -> Result<(), Fail> {
    let text = crossed_text(rt.alloc())?;
    assert!(rt; last_fills(&rt, text.as_bytes())? == (300, 0));
    Ok(())
}
