//! A part of the page: made by scripts/page-text.py from page/build.js.

/// The part.
pub(crate) const TEXT: &str = "// ---- Build

const CLASSES = {
  N: [\"digits\", /^[0-9]*$/], A: [\"letters\", /^[a-z]*$/i], AN: [\"letters and digits\", /^[a-z0-9]*$/i],
  ANS: [\"printable characters\", /^[ -~]*$/], Z: [\"track characters\", /^[0-?]*$/], ZD: [\"track characters or D\", /^[0-?D]*$/],
  XN: [\"C or D, then digits\", /^([CD][0-9]*)?$/], B: [\"bytes, typed as hex digits\", /^([0-9a-f]{2})*$/i],
};
const CODINGS = { ascii: \"in ASCII\", bcd: \"in BCD\", raw: \"written as they are\", hex: \"written as hex digits\" };
// the elements that are typed, by number; the keys of an object that are numbers are in ascending order
const typed = { elements: { ...ECHO_TEST.elements }, hex: \"\" };

const isExact = (row) => row.length === \"fixed\" && row.pad === \"none\";

// What a row allows, in words.
function ruleOf(row) {
  const unit = row.class === \"B\" ? \" bytes\" : \"\";
  const prefix = row.length === \"fixed\" ? \"\" : `, behind a length of ${row.length.length} digits`;
  const pad = row.pad === \"none\" ? \"\" : `, filled to ${row.max}`;
  return `${CLASSES[row.class][0]}, ${isExact(row) ? \"exactly\" : \"at most\"} ${row.max}${unit}, ${CODINGS[row.coding]}${prefix}${pad}`;
}

// What is plainly wrong with a value, or an empty text.
function violation(row, value) {
  if (!row) return \"The table has no row for it.\";
  const [words, pattern] = CLASSES[row.class];
  const count = row.class === \"B\" ? value.length / 2 : value.length;
  if (!pattern.test(value)) return `Not in its class: ${words} are wanted.`;
  if (count > row.max) return `Too long: ${count} of at most ${row.max}.`;
  return isExact(row) && count < row.max ? `Too short: ${count} of ${row.max}.` : \"\";
}

// The message that is typed. Bytes are in upper case.
function typedMessage() {
  const written = ([number, value]) => [number, table.rows[number]?.class === \"B\" ? value.toUpperCase() : value];
  return { mti: byId(\"mti\").value, elements: Object.fromEntries(Object.entries(typed.elements).map(written)) };
}

function setMessage({ mti, elements }) {
  byId(\"mti\").value = mti;
  typed.elements = { ...elements };
  showElements();
  build();
}

// The fields of the elements, and the chooser of those that aren't there yet.
function showElements() {
  fill(\"elements\", ...Object.keys(typed.elements).map(makeElement));
  const free = Object.keys(table.rows).filter((number) => !(number in typed.elements));
  setOptions(\"adding\", free.map((number) => [number, `${number} ${nameOf(number)}`]));
  byId(\"add\").disabled = free.length === 0;
}

// The field of an element, with its rule and what is wrong.
function makeElement(number) {
  const row = table.rows[number];
  const id = `element${number}`;
  const wrong = make(\"span\", { class: \"wrong\", id: `${id}Wrong` });
  const judge = (field) => {
    wrong.textContent = violation(row, field.value);
    field.setAttribute(\"aria-invalid\", wrong.textContent !== \"\");
  };
  const type = (event) => {
    typed.elements[number] = event.target.value;
    judge(event.target);
    build();
  };
  const remove = () => {
    delete typed.elements[number];
    showElements();
    byId(\"adding\").focus();
    build();
  };
  const field = make(\"input\", { id, class: \"mono\", value: typed.elements[number], input: type, \"aria-describedby\": `${id}Rule ${id}Wrong` });
  judge(field);
  return make(\"div\", { class: \"element\" },
    make(\"label\", { for: id }, `${number} ${nameOf(number)}`),
    field,
    makeButton(\"Remove\", remove, { \"aria-label\": `Remove element ${number}` }),
    make(\"span\", { class: \"rule small\" }, make(\"span\", { class: \"quiet\", id: `${id}Rule` }, row ? ruleOf(row) : \"\"), \" \", wrong));
}

function addElement() {
  const number = byId(\"adding\").value;
  typed.elements[number] = \"\";
  showElements();
  byId(`element${number}`).focus();
  build();
}

// Builds the typed message, and shows its bytes, also under the other table.
function build() {
  const message = typedMessage();
  const { mti, elements } = message;
  const isType = /^\\d{4}$/.test(mti);
  byId(\"mtiWrong\").textContent = isType ? \"\" : \"A message type has four digits.\";
  byId(\"mti\").setAttribute(\"aria-invalid\", !isType);
  byId(\"playBuilt\").textContent = mti + (elements[11] ? `, trace ${elements[11]}` : \"\") + (elements[4] ? `, amount ${Number(elements[4])}` : \"\");
  run(\"build\", async () => {
    const from = chosenTable(\"table\");
    const frames = byId(\"buildFrames\").value || null;
    const built = await ask(\"build\", { table: from, message, frames });
    if (!built.hex) return () => showBuilt(built, {}, {});
    const input = { input: built.hex, isHex: true, frames, skip: 0 };
    const [shown, converted] = await Promise.all([
      ask(\"look\", { table: from, ...input, clear: isClear() }),
      ask(\"convert\", { from, to: chosenTable(\"other\"), ...input }),
    ]);
    return () => showBuilt(built, shown, converted);
  }, PAUSE);
}

function showBuilt({ hex = \"\", complaints }, { messages = [] }, converted) {
  const other = converted.hex || \"\";
  typed.hex = hex;
  tell(\"build\", hex ? `Built: ${hex.length / 2} bytes.` : \"No bytes yet: something doesn't fit.\", !hex);
  listComplaints(\"buildComplaints\", complaints);
  byId(\"built\").value = linesOf(hex);
  byId(\"builtLabel\").textContent = `Under ${wordsOf(\"table\")}: ${hex.length / 2} bytes`;
  byId(\"converted\").value = linesOf(other);
  byId(\"convertedLabel\").textContent = `The same message under ${wordsOf(\"other\")}: ${other.length / 2} bytes`;
  listComplaints(\"otherComplaints\", converted.complaints);
  showMessage(\"buildMessage\", messages[0]);
  for (const id of [\"copyHex\", \"copyJson\", \"download\", \"send\", \"loseRequest\", \"loseAnswer\"]) byId(id).disabled = !hex;
}

// Takes the message that Look shows. What is masked there is left to be typed.
function takeFromLook() {
  const message = looked.messages[looked.chosen];
  if (!message || !typeOf(message)) return tell(\"build\", \"Look shows no message.\", true);
  const pieces = message.pieces.filter((piece) => piece.kind === \"element\");
  const value = (piece) => (piece.bytes.includes(\"*\") ? \"\" : piece.value);
  return setMessage({ mti: typeOf(message), elements: Object.fromEntries(pieces.map((piece) => [piece.element, value(piece)])) });
}

async function copy(text, what) {
  try {
    await navigator.clipboard.writeText(text);
    tell(\"build\", `${what} is copied.`);
  } catch {
    tell(\"build\", \"The browser doesn't let the page copy. Mark the text and copy it.\", true);
  }
}

// Hands the built bytes to the browser as a file.
function download() {
  const address = URL.createObjectURL(new Blob([toBytes(typed.hex)]));
  make(\"a\", { href: address, download: `${byId(\"mti\").value}.bin` }).click();
  setTimeout(() => URL.revokeObjectURL(address), 10000);
}

";
