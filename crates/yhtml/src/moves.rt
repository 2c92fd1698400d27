//! The script of the page: its lists, its keys, and where it begins.

/// It ends what `script`, `shown` and `trees` begin.
pub const MOVES: &str = r##"
/* The time between steps that are played. */
const PACE = 500;
let timer, later;

/* At most so many things of a list, and how many there are more. */
function some(list, draw) {
  const shown = list.slice(0, MANY).map(draw), more = list.length - shown.length;
  if (more > 0) shown.push(make("li", {}, faint(`and ${more} more`)));
  return list.length ? shown : [make("li", {}, faint("none"))];
}

function troubleItem([error, ...steps]) {
  const quiet = error.reported === false ? ", not reported" : "";
  const item = link(error.place, stepText(error) + quiet);
  const told = [error, ...steps].map(expectedText).filter(Boolean);
  item.append(make("p", { class: "could" }, told.join("\n")),
    make("ul", {}, ...some(steps, (step) => link(step.place, stepText(step)))));
  return item;
}

function metItem(position) {
  const text = `state ${stateOf(position)} on ${name(tokenAt(position.taken))}`;
  return link(position.place, text);
}

function box(head, text) {
  return make("div", { class: "box" }, make("strong", {}, head), make("pre", {}, text));
}

/* A conflict: its rivals and the ways to it, beside each other. */
function card({ number, state, token, states, shift, rules, more, why, ways, missing }) {
  const shifts = itemsOf(state).filter(([rule, dot]) => bodyOf(rule)[dot] === token);
  const taken = (yes) => (yes ? "taken" : "not taken");
  const boxes = rules.map((rule, place) =>
    box(`${taken(!shift && place === 0)}: reduce by ${ruleName(rule)}`, ruleText(rule)));
  if (shifts.length) boxes.unshift(box(`${taken(shift)}: shift ${name(token)}`,
    shifts.map((item) => itemText(item).join("\u2022")).join("\n")));
  if (more) boxes.push(box(`and ${more} rules more`, ""));
  boxes.push(...[...ways, missing].filter(Boolean).map((way) => box("the way there", plain(way))));
  const count = states > 1 ? `, the same in ${states} states` : "";
  const head = `conflict ${number}: state ${state} on ${name(token)}${count}`;
  return make("li", {}, make("h4", {}, head), make("div", { class: "beside" }, ...boxes),
    make("pre", {}, plain(why)));
}

/* A list in words: A, B and C. */
const listed = (words) => [words.slice(0, -1).join(", "), ...words.slice(-1)].filter(Boolean)
  .join(" and ");

/* What conflicts come from, in the words of the report: precedences that settle them, beside those
   that are settled by causes before it, or two rules that they are between. */
function causeText([count, tokens, rules], place) {
  const of = `${count} of ${data.conflicts.all} conflicts`, [rule, other] = rules.map(ruleName);
  const [stand, go] = count === 1 ? ["stands", "goes"] : ["stand", "go"];
  if (other) return `${of} ${stand} between ${rule}, which is taken, and ${other}`;
  const shown = tokens.slice(0, 20).map(name), more = tokens.length - shown.length, lines = [];
  if (more) shown.push(`${more} tokens more`);
  const many = tokens.length > 1 ? "get precedence lines" : "gets a precedence line";
  if (tokens.length) lines.push(`${listed(shown)} ${many}`);
  if (rule) lines.push(`${rule} a precedence of its own by %prec`);
  return `${place ? `${count} more` : `${of} ${go}`} when ${lines.join(", and ")}`;
}

/* The conflicts by their causes, in the order of these; then those without one. */
function showConflicts() {
  const { conflicts } = data;
  at("conflicts").hidden = conflicts === null;
  if (!conflicts) return;
  const { counts, causes, kinds, more } = conflicts;
  at("counts").textContent = plain(counts) || "no conflicts";
  const add = (head, cards) => {
    if (!cards.length) return;
    if (head) at("kinds").append(make("h3", {}, head));
    at("kinds").append(make("ul", {}, ...cards.map(card)));
  };
  const others = causes.length ? "Of other causes" : "";
  causes.forEach((cause, place) =>
    add(causeText(cause, place), kinds.filter((kind) => kind.cause === place)));
  add(others, kinds.filter((kind) => kind.cause === null));
  const untried = "A precedence may lose sentences: ydebug conflicts tries it on some.";
  const isUntried = causes.some(([, , rules]) => rules.length < 2);
  if (isUntried) at("kinds").append(make("p", { class: "faint" }, untried));
  if (more) at("kinds").append(make("p", { class: "faint" }, `and ${more} more`));
}

function showLists() {
  const met = positions.filter(({ cell }) => cell && cell.conflicts);
  at("recovery").append(...some(troubles, troubleItem));
  at("met").append(...some(met, metItem));
  at("rules").append(...data.table.rules.map((_, rule) =>
    make("li", {}, `${ruleText(rule)} `, faint(ruleName(rule)))));
  showConflicts();
}

function show(place) {
  now = Math.min(last(), Math.max(first(), place));
  const { step, top } = here(), start = now ? "this part begins here" : "nothing is done yet";
  at("slider").value = now;
  at("place").textContent = `${now} of ${last()}${spot(here().taken)}`;
  at("done").textContent = `${now}: ${step ? stepText(step) : start}`;
  at("done").className = `done ${step ? step.kind : ""}`;
  for (const fact of ["mode", "errors", "counter"]) at(fact).textContent = here()[fact];
  showSource();
  showTokens();
  showStack();
  showState();
  reveal((step && step.node) || (top && top.node));
  const ahead = at("tokens").querySelector("[aria-current]") || { offsetLeft: 0 };
  at("tokens").scrollLeft = ahead.offsetLeft - at("tokens").clientWidth / 3;
  const mark = at("lines").querySelector("mark") || { offsetTop: 0 };
  at("lines").scrollTop = mark.offsetTop - at("lines").clientHeight / 3;
  clearTimeout(later);
  later = setTimeout(() => history.replaceState(null, "", `#${now}`), 250);
  if (now === last()) stop();
}

function stop() {
  clearInterval(timer);
  timer = undefined;
  at("play").textContent = "Play";
}

function play() {
  if (timer) return stop();
  if (now === last()) show(first());
  timer = setInterval(() => show(now + 1), PACE);
  at("play").textContent = "Stop";
}

function key(event) {
  const { target } = event;
  if (event.altKey || event.ctrlKey || event.metaKey) return;
  const moves = { ArrowLeft: now - 1, ArrowRight: now + 1, Home: first(), End: last() };
  if (event.key === " " && !target.closest("button, summary, a")) play();
  else if (event.key in moves && target.type !== "range") show(moves[event.key]);
  else return;
  event.preventDefault();
}

function fromAddress() {
  const digits = /^#(\d+)$/.exec(location.hash);
  show(digits ? Number(digits[1]) : first());
}

function begin() {
  data = JSON.parse(at("data").textContent);
  data.table.rules.forEach(([left], rule) => (rulesOf[left] ||= []).push(rule));
  data.table.states.forEach((state) => rowOf.set(state[0], state));
  readPositions();
  readSource();
  document.title = at("title").textContent = `${data.files[1]}, parsed by ${data.files[0]}`;
  Object.assign(at("slider"), { min: first(), max: last() });
  at("slider").oninput = () => show(Number(at("slider").value));
  const deeds = { first: () => show(first()), back: () => show(now - 1), on: () => show(now + 1),
    last: () => show(last()), play, open: () => foldAll(false), close: () => foldAll(true) };
  for (const [id, deed] of Object.entries(deeds)) at(id).onclick = deed;
  Object.assign(at("tree"), { onkeydown: treeKey, onscroll() {
    scrolled = at("tree").scrollTop;
    drawRows(false);
  } });
  at("drawing").onkeydown = drawingKey;
  document.onkeydown = key;
  Object.assign(window, { onhashchange: fromAddress, onbeforeprint: () => drawRows(true),
    onafterprint: () => drawRows(false) });
  showLists();
  fromAddress();
}

document.addEventListener("DOMContentLoaded", begin);
</script>
"##;
