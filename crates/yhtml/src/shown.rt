//! The script of the page: how the text, the tokens, the stack and the state are shown.

/// It goes on with what `script` begins.
pub const SHOWN: &str = r##"
/* The bytes of the text that the tokens were read from, where its lines begin in them, and before
   which token it is shown. */
const source = { bytes: null, starts: [], shown: -1 };

function readSource() {
  const { text, places } = data.input;
  at("source").hidden = !places.length;
  source.bytes = new TextEncoder().encode(text);
  for (let start = 0; start >= 0; start = source.bytes.indexOf(10, start) + 1 || -1)
    source.starts.push(start);
}

/* How many bytes of what is given of the text stand before a line and a column. */
function bytesBefore(line, column) {
  const [first, begun] = data.input.from;
  return line === first ? column - begun : source.starts[line - first] + column - 1;
}

/* The line, the column and the bytes of the token at a place, if it was read from a text. */
const spotOf = (place) => data.input.places[place - data.input.skipped];

/* A byte of a word as sessions write it. */
const letter = (byte) => byte < 32 || byte > 126 ? `\\x${byte.toString(16).padStart(2, "0")}`
  : String.fromCharCode(byte);

/* What a node is called: its symbol, and the word of a token, unless it is a literal. */
function called({ symbol, place }) {
  const found = spotOf(place), text = name(symbol);
  if (!found || text.startsWith("'")) return text;
  const [line, column, length] = found, begin = bytesBefore(line, column), most = data.input.word;
  const word = Array.from(source.bytes.subarray(begin, begin + Math.min(length, most)), letter);
  return `${text} ${word.join("")}${length > most ? ".." : ""}`;
}

/* What is noted of a node: of a token of a text where it stands there. */
function noted({ note, place }) {
  const found = spotOf(place);
  return found ? `@${found[0]}:${found[1]}` : note;
}

/* Where what is shown around some bytes begins and ends: at a line where one is near, and else
   between two characters. */
function around(begin, end) {
  const { bytes } = source;
  let from = Math.max(0, begin - NEAR), to = Math.min(bytes.length, end + NEAR);
  const newline = from ? bytes.indexOf(10, from) : -1;
  if (newline >= 0 && newline < begin - NEAR / 2) from = newline + 1;
  const last = to < bytes.length ? bytes.lastIndexOf(10, to - 1) : -1;
  if (last >= end + NEAR / 2) to = last;
  while (from < begin && (bytes[from] & 0xc0) === 0x80) from += 1;
  while (to > end && (bytes[to] & 0xc0) === 0x80) to -= 1;
  return [from, to];
}

/* Lines of texts, the first of a number; each text says whether it is marked. */
function sourceLines(texts, number) {
  const lines = [];
  const begin = () =>
    lines.push(make("div", { class: "line", "data-line": number + lines.length }));
  begin();
  for (const [text, isMarked] of texts) {
    text.split("\n").forEach((part, index) => {
      if (index) begin();
      lines.at(-1).append(isMarked ? make("mark", { "aria-current": "true" }, part) : part);
    });
  }
  if (!lines.at(-1).textContent) lines.pop();
  return lines;
}

/* The text around the token ahead, which is marked; the end has no bytes, and is named. */
function showSource() {
  const { taken } = here(), found = spotOf(taken);
  if (!found || source.shown === taken) return;
  source.shown = taken;
  const [line, column, length] = found, begin = bytesBefore(line, column), end = begin + length;
  const [from, to] = around(begin, end), decoder = new TextDecoder("utf-8", { ignoreBOM: true });
  const cut = (some, other) => decoder.decode(source.bytes.subarray(some, other));
  const before = cut(from, begin), number = line - before.split("\n").length + 1;
  const texts = [[before, false], [cut(begin, end) || name(0), true], [cut(end, to), false]];
  at("lines").replaceChildren(...sourceLines(texts, number));
}

/* Where a token stands in the text that it was read from, if it was read from one. */
function spot(place) {
  const found = spotOf(place);
  return found ? ` at ${found[0]}:${found[1]}` : "";
}

function tokenItem(place) {
  const { taken } = here(), item = make("li", { "data-place": place + 1 }, name(tokenAt(place)));
  item.title = (place < data.input.count ? `token ${place + 1}` : "the end") + spot(place);
  if (place < taken) item.className = lost.has(place) ? "discarded" : "taken";
  if (place === taken) item.setAttribute("aria-current", "true");
  item.onclick = () => show((positions.find((it) => it.taken >= place) || { place: last() }).place);
  return item;
}

function showTokens() {
  const { taken } = here(), { count, skipped, symbols } = data.input, items = [];
  const from = Math.max(skipped, taken - BEFORE);
  const to = Math.min(skipped + symbols.length, taken + 2 * BEFORE);
  if (from > 0) items.push(make("li", { class: "more" }, `${from} before`));
  for (let place = from; place < to; place += 1) items.push(tokenItem(place));
  items.push(to === count ? tokenItem(count) : make("li", { class: "more" }, `${count - to} more`));
  at("tokens").replaceChildren(...items);
}

function entryRow(number, label, note, kind) {
  return make("li", { class: kind }, faint(number), make("span", {}, label), faint(note));
}

/* What was popped since the error, above what is left, until the step after error's shift. */
function poppedHere() {
  const { step, mode } = here();
  if (mode !== "popping" && !(step && "xf".includes(step.kind))) return [];
  const trouble = troubles.findLast(([error]) => error.place <= now) || [];
  const popped = trouble.filter((it) => it.popped && it.place <= now);
  return popped.map((it) => entryRow("", name(it.popped.symbol), "popped", "popped"));
}

function showStack() {
  const { top, step } = here(), list = poppedHere().slice(0, MANY);
  let entry = top;
  for (let left = MANY; entry && left > 0; left -= 1) {
    const kind = step && step.node === entry.node ? "entry new" : "entry";
    list.push(entryRow(entry.depth, name(entry.node.symbol), `state ${entry.state}`, kind));
    entry = entry.below;
  }
  list.push(entryRow(0, entry ? `${entry.depth} entries` : "", entry ? "" : "state 0", ""));
  at("stack").replaceChildren(...list);
}

/* The items of a state: those that have begun, and the rules that they lead to. */
function itemsOf(state) {
  const items = rowOf.get(state)[1].slice();
  const added = new Set();
  for (const [rule, dot] of items) {
    const symbol = bodyOf(rule)[dot];
    if (!(symbol >= data.table.tokens) || added.has(symbol)) continue;
    added.add(symbol);
    for (const number of rulesOf[symbol] || []) items.push([number, 0]);
  }
  return items;
}

/* Whether an item is about a step. */
function isAbout([rule, dot], step) {
  if (step.kind === "r") return step.node.rule === rule && dot === bodyOf(rule).length;
  return "sax".includes(step.kind) && bodyOf(rule)[dot] === (step.kind === "x" ? 1 : step.token);
}

/* An item, with its lookaheads where it is complete. */
function itemRow(item) {
  const [before, after] = itemText(item), next = following(), [rule, place] = item;
  const row = rowOf.get(stateOf(here()))[2].find(([number]) => number === rule);
  const isComplete = row && place === bodyOf(rule).length;
  const looks = isComplete ? ` reduce on ${names(data.table.looks[row[1]])}` : "";
  const dot = make("span", { class: "dot", role: "img", "aria-label": "dot" }, "\u2022");
  const hot = next && isAbout(item, next.step) ? "hot" : "";
  return make("li", { class: hot }, before, dot, after, faint(` ${ruleName(rule)}`),
    make("span", { class: "looks" }, looks));
}

/* What is said of the error that comes next or came last, or that the parse is not yet out of. */
function expectedHere() {
  const { step, mode } = here(), next = following();
  for (const it of [next && next.step, step]) if (it && it.expected) return expectedText(it);
  const isOut = mode === "running" && !(step && "xd".includes(step.kind));
  if (isOut || mode === "accepted") return "";
  const trouble = troubles.findLast(([error]) => error.place <= now);
  return trouble ? expectedText(trouble[0]) : "";
}

function showState() {
  const { cell } = here(), next = following(), state = stateOf(here());
  const why = next && KINDS[next.step.kind].why;
  at("state-name").textContent = `State ${state}`;
  at("items").replaceChildren(...itemsOf(state).map(itemRow));
  const end = ENDS[here().mode] || "The part that is shown ends here.";
  at("next").textContent = next ? `next: ${stepText(next.step)}` : end;
  at("why").textContent = `${cell ? plain(cell.why) : ""}\n${why ? why(next.step) : ""}`.trim();
  at("expected").textContent = expectedHere();
  at("expected").hidden = !at("expected").textContent;
  at("note").hidden = !(cell && cell.conflicts);
  at("note").textContent = cell ? `Conflicts counted here: ${cell.conflicts}` : "";
}
"##;
