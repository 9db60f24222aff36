//! A part of the page: made by scripts/page-text.py from page/ends.js.

/// The part.
pub(crate) const TEXT: &str = "// ---- Both ends

const LOST_ANSWER = [\"begin 1000\", \"deliver 0\", \"timeout 1\", \"deliver 1\", \"answer 1\"];
const OPEN_STATES = [\"waiting\", \"waiting again\", \"reversing\"];
let events = [];

// Plays all events from the beginning.
function playEnds(pause) {
  run(\"ends\", async () => {
    const answer = await ask(\"ends\", { opening: Number(byId(\"opening\").value), events });
    return () => showEnds(answer);
  }, pause);
}

function happen(...more) {
  events.push(...more);
  playEnds();
}

const statesOf = (step) => step.states.map(({ trace, state }) => `trace ${trace} ${state}`).join(\", \");

function stepWords(step) {
  if (step.refused) return \"refused: \" + step.refused;
  if (step.given !== undefined) return `answer ${step.given} is given, ${codeWords(step.code)}`;
  return step.sent === undefined ? `now ${statesOf(step)}` : `order ${step.sent} is sent`;
}

function showEnds({ steps, sent, given }) {
  const last = steps.at(-1);
  const made = steps.findLast((step) => step.states);
  const act = (words, event, what) => makeButton(words, () => happen(event), { \"aria-label\": `${words} ${what}` });
  const traces = (made?.states || []).map(({ trace, state }) => ({
    cells: [trace, state, OPEN_STATES.includes(state) ? act(\"Time out\", `timeout ${trace}`, `trace ${trace}`) : \"\"],
  }));
  const orders = sent.map(({ place, what, type, trace, amount }) => ({
    cells: [place, `${what} ${type}, trace ${trace}${amount ? `, ${amount}` : \"\"}`, act(\"Deliver\", `deliver ${place}`, `order ${place}`)],
  }));
  const answers = given.map(({ place, to, code }) => ({
    cells: [place, `${codeWords(code)}, to order ${to}`, act(\"Hand over\", `answer ${place}`, `answer ${place}`)],
  }));
  const happened = steps.map((step, at) => ({ cells: [at + 1, step.event, stepWords(step), step.ledger, step.states && statesOf(step)] }));
  const ledger = made?.ledger ?? byId(\"opening\").value;
  fill(\"traces\", makeTable(\"The acquirer holds\", [\"Trace\", \"State\", \"Act\"], traces));
  fill(\"sent\", makeTable(\"Sent to the issuer\", [\"No.\", \"Order\", \"Act\"], orders));
  fill(\"given\", makeTable(\"Given by the issuer\", [\"No.\", \"Answer\", \"Act\"], answers),
    make(\"p\", {}, \"The issuer's ledger: \", make(\"strong\", { id: \"ledger\" }, ledger)));
  fill(\"steps\", makeTable(\"What happened\", [\"No.\", \"Event\", \"What came of it\", \"Ledger\", \"Traces\"], happened, [\"\", \"mono\"]));
  tell(\"ends\", last ? `${last.event}: ${stepWords(last)}.` : \"Nothing has happened. Begin an order, or play the example.\", Boolean(last?.refused));
  byId(\"endsUndo\").disabled = !last;
}

";
