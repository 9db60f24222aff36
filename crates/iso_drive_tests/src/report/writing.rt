//! A whole report: for people, as JSON and as a picture.

use iso_fakes::check;
use iso_mix::{Counts, Mix};
use iso_order::Pan;
use iso_report::{Report, Settings};
use iso_tally::{AccountBooks, Declined, Doubt, Ended, Latencies, Mixed, Tally};
use std::alloc::{AllocError, Global};
use std::test::Fail;

const SETTINGS: Settings<'static> = Settings {
    address: "127.0.0.1:8583",
    table: "bcd87",
    header: "binary2",
    acquirer: 12_345,
    peers: 8,
    most_open: 128,
    rate: Some(200),
    patience: 2_000,
    lose: 50_000,
    repeat: 0,
    cut: 2_500,
    delay: (50, 200),
    seed: 7,
};

const TALLY: Tally = Tally {
    begun: 9,
    sent: 12,
    again: 2,
    reversals: 1,
    answers: 10,
    late: 1,
    lost: 2,
    delayed: 22,
    connected: 8,
    ..Tally::NONE
};

/// What both ends say of an account.
fn account(digits: &[u8], opening: i64, spent: u128, told: Option<i64>) -> Option<AccountBooks> {
    let pan = Pan::from_digits(digits)?;
    Some(AccountBooks {
        pan,
        opening,
        spent,
        told,
    })
}

/// What both ends say of three accounts: they agree, they differ, and the host told nothing.
fn accounts(alloc: Global) -> Result<Vec<AccountBooks>, AllocError> {
    let mut accounts = Vec::new(alloc);
    for (digits, opening, spent, told) in [
        (b"4111111111111111", 1_000, 250, Some(750)),
        (b"4111111111111112", 500, 100, Some(300)),
        (b"4111111111111113", 7, 0, None),
    ] {
        if let Some(account) = account(digits, opening, spent, told) {
            accounts.push(account)?;
        }
    }
    Ok(accounts)
}

/// A message in question.
const MESSAGE: &str = r#"{"mti":"0200","elements":{"2":"411111******1112","11":"000012"}}"#;

/// What to look at of the second account.
fn doubts(alloc: Global) -> Result<Vec<Doubt>, AllocError> {
    let mut messages = Vec::new(alloc);
    messages.push(String::from_str(alloc, MESSAGE)?)?;
    let mut doubts = Vec::new(alloc);
    doubts.push(Doubt {
        place: 1,
        traces: Vec::from_slice(alloc, &[12, 345])?,
        messages,
    })?;
    Ok(doubts)
}

/// How far the purchases got.
fn ended(alloc: Global) -> Result<Ended, AllocError> {
    let declined = [
        Declined { code: 5, count: 1 },
        Declined { code: 51, count: 2 },
    ];
    Ok(Ended {
        approved: 5,
        declined: Vec::from_slice(alloc, &declined)?,
        reversed: 1,
        open: 0,
    })
}

/// How long the answers took.
fn latencies(alloc: Global) -> Result<Latencies, AllocError> {
    let mut latencies = Latencies::new(alloc);
    for micros in [845, 1_920, 1_100, 12_300] {
        latencies.add(micros)?;
    }
    Ok(latencies)
}

/// A report in which one thing of each kind happened.
fn report(alloc: Global) -> Result<Report<'static>, AllocError> {
    let mut report = idle(alloc);
    report.settings = SETTINGS;
    report.tally = TALLY;
    report.micros = 1_503_000;
    report.ended = ended(alloc)?;
    report.books = Some(accounts(alloc)?);
    report.doubts = doubts(alloc)?;
    let mut latencies = latencies(alloc)?;
    report.timed = latencies.len();
    report.buckets = latencies.buckets(alloc)?;
    report.summary = latencies.summary();
    Ok(report)
}

const TEXT: &str =
    "127.0.0.1:8583: table bcd87, header binary2, acquirer 12345, connections 8, seed 7, patience 2000 ms, 5 % lost, 0.25 % cut, delayed 50 to 200 ms
9 purchases in 1.50 s, 5 a second

Transactions
  approved                           5
  declined                           3
    05                               1  Do not honour
    51                               2  Not sufficient funds
  reversed                           1
  still open                         0

Latency of 4 answers, in milliseconds
  least                          0.845
  p50                             1.10
  p90                             12.3
  p99                             12.3
  p99.9                           12.3
  most                            12.3

    500 us to     1 ms               1  ####################
      1 ms to     2 ms               2  ########################################
      2 ms to     5 ms               0
      5 ms to    10 ms               0
     10 ms to    20 ms               1  ####################

Traffic
  frames sent                       12
    orders again                     2
    reversals                        1
  answers read                      10
    late or again                    1
  lost on purpose                    2
  delayed on purpose                22
  connections made                   8

account 411111******1112 differs: the host tells 300, our books say 500 less 100
  look at the transactions that were reversed or are open, by trace number: 000012 000345
    {\"mti\":\"0200\",\"elements\":{\"2\":\"411111******1112\",\"11\":\"000012\"}}
the host told no balance of accounts: 1
both books agree on accounts: 1
";

const JSON: &str = "{\"all_closed\":true,\
\"books\":{\"agree\":1,\"differ\":1,\"differing\":[{\"account\":2,\"messages\":[{\"elements\":{\"11\":\"000012\",\"2\":\"411111******1112\"},\"mti\":\"0200\"}],\"opening\":500,\"spent\":100,\"told\":300,\"traces\":[12,345]}],\"untold\":1},\
\"books_agree\":false,\"elapsed_micros\":1503000,\"histogram_micros\":[\
{\"below\":10,\"count\":0,\"from\":0},\
{\"below\":20,\"count\":0,\"from\":10},\
{\"below\":50,\"count\":0,\"from\":20},\
{\"below\":100,\"count\":0,\"from\":50},\
{\"below\":200,\"count\":0,\"from\":100},\
{\"below\":500,\"count\":0,\"from\":200},\
{\"below\":1000,\"count\":1,\"from\":500},\
{\"below\":2000,\"count\":2,\"from\":1000},\
{\"below\":5000,\"count\":0,\"from\":2000},\
{\"below\":10000,\"count\":0,\"from\":5000},\
{\"below\":20000,\"count\":1,\"from\":10000},\
{\"below\":50000,\"count\":0,\"from\":20000},\
{\"below\":100000,\"count\":0,\"from\":50000},\
{\"below\":200000,\"count\":0,\"from\":100000},\
{\"below\":500000,\"count\":0,\"from\":200000},\
{\"below\":1000000,\"count\":0,\"from\":500000},\
{\"below\":2000000,\"count\":0,\"from\":1000000},\
{\"below\":5000000,\"count\":0,\"from\":2000000},\
{\"below\":10000000,\"count\":0,\"from\":5000000},\
{\"below\":null,\"count\":0,\"from\":10000000}],\
\"latency_micros\":{\"answers\":4,\"least\":845,\"most\":12300,\"p50\":1100,\"p90\":12300,\"p99\":12300,\"p999\":12300},\
\"mix\":null,\
\"settings\":{\"acquirer\":12345,\"address\":\"127.0.0.1:8583\",\"connections\":8,\"cut_millionths\":2500,\"delay_ms\":[50,200],\
\"header\":\"binary2\",\"lose_millionths\":50000,\"most_open\":128,\"patience_ms\":2000,\"rate\":200,\"repeat_millionths\":0,\
\"seed\":7,\"table\":\"bcd87\"},\
\"traffic\":{\"again\":2,\"answers\":10,\"bad_frames\":0,\"begun\":9,\"closed\":0,\"connected\":8,\"cut\":0,\"delayed\":22,\
\"differing\":0,\"foreign\":0,\"late\":1,\"lost\":2,\"refused\":0,\"repeated\":0,\"resumed\":0,\"reversals\":1,\"sent\":12,\
\"unreadable\":0},\
\"transactions\":{\"approved\":5,\"declined\":3,\
\"declined_by_code\":[{\"code\":\"05\",\"count\":1},{\"code\":\"51\",\"count\":2}],\"open\":0,\"reversed\":1}}";

/// A run of which nothing came.
pub(super) fn idle(alloc: Global) -> Report<'static> {
    Report {
        settings: Settings {
            rate: None,
            ..SETTINGS
        },
        tally: Tally::NONE,
        ended: Ended {
            approved: 0,
            declined: Vec::new(alloc),
            reversed: 0,
            open: 3,
        },
        mixed: None,
        timed: 0,
        buckets: Vec::new(alloc),
        summary: None,
        micros: 0,
        books: None,
        doubts: Vec::new(alloc),
    }
}

const PICTURE: &str = "<rect class=\"ground\" width=\"720\" height=\"220\"/>
<title>Latency of 4 answers</title>
<text class=\"words\" x=\"20\" y=\"32\" font-size=\"18\">Latency of 4 answers</text>
<text class=\"faint\" x=\"20\" y=\"58\">p50 1.10 ms   p90 12.3 ms   p99 12.3 ms   p99.9 12.3 ms   most 12.3 ms   </text>
<text class=\"words\" x=\"180\" y=\"104\" text-anchor=\"end\">500 us to 1 ms</text><rect class=\"bar\" x=\"190\" y=\"90\" width=\"200\" height=\"18\" rx=\"2\"/><text class=\"faint\" x=\"398\" y=\"104\">1</text>
<text class=\"words\" x=\"180\" y=\"128\" text-anchor=\"end\">1 ms to 2 ms</text><rect class=\"bar\" x=\"190\" y=\"114\" width=\"400\" height=\"18\" rx=\"2\"/><text class=\"faint\" x=\"598\" y=\"128\">2</text>
<text class=\"words\" x=\"180\" y=\"152\" text-anchor=\"end\">2 ms to 5 ms</text><rect class=\"bar\" x=\"190\" y=\"138\" width=\"0\" height=\"18\" rx=\"2\"/><text class=\"faint\" x=\"198\" y=\"152\">0</text>
<text class=\"words\" x=\"180\" y=\"176\" text-anchor=\"end\">5 ms to 10 ms</text><rect class=\"bar\" x=\"190\" y=\"162\" width=\"0\" height=\"18\" rx=\"2\"/><text class=\"faint\" x=\"198\" y=\"176\">0</text>
<text class=\"words\" x=\"180\" y=\"200\" text-anchor=\"end\">10 ms to 20 ms</text><rect class=\"bar\" x=\"190\" y=\"186\" width=\"200\" height=\"18\" rx=\"2\"/><text class=\"faint\" x=\"398\" y=\"200\">1</text>
</svg>
";

/// How the picture begins, behind which its colours stand.
const FRONT: &str = "<svg xmlns=\"http://www.w3.org/2000/svg\" viewBox=\"0 0 720 220\" ";

/// Whether the report is told so for people.
fn is_text(alloc: Global, report: &Report<'_>, wanted: &str) -> Result<bool, AllocError> {
    let text = report.to_text(alloc)?;
    Ok(text.as_str() == wanted)
}

/// Whether the report is told so for programs.
fn is_json(alloc: Global, report: &Report<'_>, wanted: &str) -> Result<bool, AllocError> {
    let json = report.to_json(alloc)?;
    Ok(json.as_str() == wanted)
}

/// Whether the picture begins and ends so.
fn is_picture(
    alloc: Global,
    report: &Report<'_>,
    front: &str,
    end: &str,
) -> Result<bool, AllocError> {
    let picture = report.to_svg(alloc)?;
    Ok(picture.as_str().starts_with(front) && picture.as_str().ends_with(end))
}

#[test]
fn of_one_thing_of_each_kind(rt: HostRuntime) -> Result<(), Fail> {
    let alloc = rt.alloc();
    let report = report(alloc)?;
    check(is_text(alloc, &report, TEXT)?, "for people")?;
    check(is_json(alloc, &report, JSON)?, "for programs")?;
    check(is_picture(alloc, &report, FRONT, PICTURE)?, "as a picture")?;
    check(report.books_agree() == Some(false), "the books differ")?;
    check(!report.is_good(), "it isn't good")
}

/// How what programs read of a run begins of which nothing came.
const NOTHING: &str =
    "{\"all_closed\":false,\"books\":null,\"books_agree\":null,\"elapsed_micros\":0,\"histogram_micros\":[],\"latency_micros\":null,";

/// How its picture ends.
const EMPTY: &str = ">Latency of 0 answers</text>\n</svg>\n";

/// Whether what programs read has this in it.
fn json_has(alloc: Global, report: &Report<'_>, part: &str) -> Result<bool, AllocError> {
    let json = report.to_json(alloc)?;
    Ok(json.as_str().contains(part))
}

#[test]
fn of_nothing(rt: HostRuntime) -> Result<(), Fail> {
    let alloc = rt.alloc();
    let report = idle(alloc);
    check(json_has(alloc, &report, NOTHING)?, "for programs")?;
    check(is_picture(alloc, &report, "<svg ", EMPTY)?, "as a picture")?;
    check(report.books_agree().is_none(), "no books are compared")?;
    check(!report.is_good(), "it isn't good")
}

/// How far some orders got.
fn counts(waiting: usize, granted: usize, refused: usize) -> Counts {
    Counts {
        waiting,
        granted,
        refused,
    }
}

/// What people read of a mix.
const LINES: &[&str] = &[
    "\nof 100 transactions: holds 20, completions 10, inquiries 5, partial reversals 5\n",
    "\n0 transactions in 0.00 s, 0 a second\n",
    "\nOther kinds                      begun     granted     refused  unanswered\n",
    "\n  holds                             21          20           1           0\n",
    "\n  completions                       10           9           0           1\n",
];

/// What programs read of it.
const MIX: &str =
    "\"mix\":{\"complete\":{\"begun\":10,\"granted\":9,\"of_100\":10,\"open\":1,\"refused\":0},\"hold\":{";

/// How far the orders of a mix got.
fn mixed() -> Mixed {
    Mixed {
        mix: Mix {
            hold: 20,
            complete: 10,
            inquiry: 5,
            undo: 5,
        },
        holds: counts(0, 20, 1),
        completions: counts(1, 9, 0),
        inquiries: counts(0, 5, 0),
        undone: counts(0, 4, 0),
    }
}

/// Ends the test unless the text has each line.
fn check_lines(text: &str) -> Result<(), Fail> {
    for line in LINES {
        check(text.contains(line), line)?;
    }
    Ok(())
}

#[test]
fn of_a_mix(rt: HostRuntime) -> Result<(), Fail> {
    let alloc = rt.alloc();
    let mut report = idle(alloc);
    report.ended.open = 0;
    report.mixed = Some(mixed());
    check(!report.all_closed(), "a completion is open")?;
    check(!report.is_good(), "it isn't good")?;
    check(json_has(alloc, &report, MIX)?, "for programs")?;
    check_lines(report.to_text(alloc)?.as_str())
}
