//! A part of the page: made by scripts/page-text.py from page/look.js.

/// The part.
pub(crate) const TEXT: &str = "// ---- Look

const looked = { messages: [], chosen: 0, isKindChosen: false };

// Whether a text is hex digits or a dump. Digits alone may be a message in ASCII, whose hex begins with 3: those that begin with
// the table's version, or with the zero of a header, are the message itself.
function looksHex(text) {
  const lines = text.split(\"\\n\").filter((line) => line.trim());
  if (lines.every((line) => /^\\s*[0-9a-f]{4,8}(:| {2,})\\s*[0-9a-f]{2}/i.test(line))) return true;
  const first = { \"\": table.version, ascii4: 0 }[byId(\"frames\").value];
  const isMessage = table.mti === \"ascii\" && byId(\"skip\").value === \"0\" && text[0] === String(first);
  return /^[0-9a-f\\s]+$/i.test(text) && !isMessage;
}

// Puts a message into the field, and says what it is.
function setInput(text, kind) {
  byId(\"input\").value = text;
  byId(\"kind\").value = kind;
  looked.isKindChosen = true;
  look();
}

// Reads the input, and shows what is in it.
function look() {
  run(\"look\", async () => {
    // a line end behind a message is one of the paste
    const input = byId(\"input\").value.replace(/\\n$/, \"\");
    if (!input) return () => showLook(\"Paste a message, choose a file, or begin with an example.\", [], []);
    if (!looked.isKindChosen) byId(\"kind\").value = looksHex(input) ? \"hex\" : \"text\";
    const { messages = [], complaints = [] } = await ask(\"look\", {
      table: chosenTable(\"table\"), input, isHex: byId(\"kind\").value === \"hex\", frames: byId(\"frames\").value || null,
      skip: Number(byId(\"skip\").value), clear: isClear(),
    });
    // the fault of a single message is told with it
    if (messages.length === 1 && messages[0].fault) messages[0].fault.usually = complaints.shift()?.split(\"; usually \")[1];
    return () => showLook(lookSentence(messages), messages, complaints);
  }, PAUSE);
}

function lookSentence(messages) {
  const bad = messages.filter((message) => message.fault).length;
  if (messages.length > 1) return `${messages.length} messages, ${bad} with a fault.`;
  if (messages.length === 0) return \"No message could be read.\";
  const [{ pieces, fault, used }] = messages;
  return fault ? `${fault.cause} at byte ${fault.badByte}: ${fault.sentence}.` : `A good message of ${used} bytes in ${pieces.length} pieces.`;
}

function showLook(sentence, messages, complaints) {
  tell(\"look\", sentence, complaints.length > 0 || messages.some((message) => message.fault));
  listComplaints(\"lookComplaints\", complaints);
  looked.messages = messages;
  chooseMessage(Math.max(0, Math.min(looked.chosen, messages.length - 1)));
}

// Shows one of the messages, and the list where there are several.
function chooseMessage(at) {
  looked.chosen = at;
  fill(\"lookMessages\", ...(looked.messages.length > 1 ? [makeMessages()] : []));
  showMessage(\"lookMessage\", looked.messages[at]);
}

const isResponse = (message) => typeOf(message)[2] % 2 === 1;
const keyOf = (message) => [typeOf(message).slice(0, 2), ...[7, 11, 32].map((number) => valueOf(message, number))].join();

// The place of each response by the place of its request: the first request of its key that has none yet.
function partnersOf(messages) {
  const partners = new Map();
  messages.forEach((message, place) => {
    if (!isResponse(message)) return;
    const request = messages.findIndex((other, at) => !partners.has(at) && !isResponse(other) && keyOf(other) === keyOf(message));
    if (request >= 0) partners.set(request, place);
  });
  return partners;
}

function makeMessages() {
  const { messages, chosen } = looked;
  const partners = partnersOf(messages);
  const paired = [...partners.values()];
  const choose = (at) => {
    chooseMessage(at);
    byId(\"lookMessages\").querySelector(\".chosen\").focus();
  };
  const choice = (at) => makeButton(at + 1, () => choose(at), {
    \"aria-pressed\": at === chosen, \"aria-label\": `Message ${at + 1}`, class: at === chosen ? \"chosen\" : \"\",
  });
  const partner = (at) => (at === undefined ? \"\" : [choice(at), ` ${typeOf(messages[at])}, code ${valueOf(messages[at], 39) ?? \"none\"}`]);
  const rows = messages.map((message, at) => ({
    cells: [choice(at), typeOf(message), valueOf(message, 11), message.fault?.cause || valueOf(message, 39), partner(partners.get(at))],
  }));
  const headings = [\"Number\", \"Type\", \"Trace (11)\", \"Code (39)\", \"Partner\"];
  return make(\"div\", { class: \"card\" }, makeTable(\"Messages\", headings, rows.filter((_, at) => !paired.includes(at))));
}

// A hint: a button where it names something that the page can do.
function makeHint(hint) {
  const [, word, value] = hint.match(/--(skip|frames) (\\w+)/) || hint.match(/(try) (ascii87|bcd87)$/) || [];
  if (word) return makeButton(hint, () => setField(word === \"try\" ? \"table\" : word, value));
  return hint.includes(\"--hex\") ? makeButton(hint, readAsHex) : hint;
}

// Reads the bytes as hex digits. Those of a file are hex already: what they stand for is hex.
function readAsHex() {
  const text = byId(\"input\").value;
  setInput(byId(\"kind\").value === \"hex\" ? toText(text.replace(/\\s/g, \"\")) : text, \"hex\");
}

// Puts an example into the field, as the table writes it. A broken one has a letter O, or F in BCD, among its zeros.
async function lookExample(isBroken) {
  const { hex, complaints } = await ask(\"build\", { table: chosenTable(\"table\"), message: PURCHASE, frames: null });
  return () => {
    if (!hex) return showLook(\"The example doesn't fit this table.\", [], complaints);
    byId(\"frames\").value = \"\";
    byId(\"skip\").value = 0;
    const text = toText(hex);
    if (/^[ -~]*$/.test(text)) return setInput(isBroken ? text.replace(\"1111000000\", \"11110000O0\") : text, \"text\");
    return setInput(linesOf(isBroken ? hex.replace(\"1111000000\", \"11110000F0\") : hex), \"hex\");
  };
}

";
